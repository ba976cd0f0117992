//! The borders of a grid of tiles in join requests: reading them, and numbering the patches of the tiles. docs/pipe.md
//! defines the bytes (profile).
//!
//! - `tiles`: `read_tile_grid` reads the borders of a grid, or reports the first error
//! - `numbering`: `number_patches_of_tiles` returns the numbers of the tiles' patches in the full map
//! - specs/BorderGrids.antt: what the bytes mean; specs/BorderChecks.antt: the borders that a tile can have
//! - `border_law`: the border of a tile is not rejected, and the border in a frame is read as a tile
//! - `border_fields` reads one border, and cells, which other lists of join requests also have;
//!   `border_checks` finds borders of no tile
#![tactic(auto)]

mod border_checks;
pub mod border_fields;
pub mod border_law;
pub mod numbering;
pub mod tiles;
