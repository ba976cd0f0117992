//! Measures the patches of a map, which are the clumps of `cell_clumps` with the same numbers
//! (GRASS manual: r.clump; the measures are our own choice).
//!
//! - `measuring`: `patch_measures` measures all patches of a map, and `patch_measures_in_tile` the patches of a tile, as
//!   in the full map
//! - `patch`: `Patch`, class, cells, ends and flanks, core, first and last rows and columns
//! - `zones`: `zones_of_patches` finds the main zone of each patch, given a second map whose categories are zones
//! - `tile_position`: `TilePosition`; `tile_law`: laws about the measures of a tile's patches
//! - specs/Patches.antt and specs/TilePatches.antt define the measures, and specs/Zones.antt main zones
//! - private, in the order of work: `near_rows`, rows of a map with the rows above and below;
//!   `core_steps`, how far inside its category a cell is; `read_rows`, the cells of a row; `core_counts`, its core
//!   cells; `zone_counts`, how many cells of patches are in zones
//!
//! The perimeter of a patch is its ends times the width of a cell, plus its flanks times the height
//! of a cell. Categories 5 5 5 over 5 null 5 are one patch:
//!
//! ```
//! let map = filled(rt.alloc(), &[5, 5, 5, 5, NULL_CATEGORY, 5], 3)?;
//! let numbers = clump_with(rt.alloc(), &map, Joining::Edges)?;
//! let patches = patch_measures(rt.alloc(), &map, &numbers, Joining::Edges, 1)?;
//! let patch = patches.first().ok_or("no patch")?;
//! assert_same!(rt; (patch.cells, patch.ends, patch.flanks), (5, 6, 6));
//! ```
#![tactic(auto)]

mod core_counts;
mod core_steps;
pub mod measuring;
mod near_rows;
pub mod patch;
mod read_rows;
pub mod tile_law;
pub mod tile_position;
mod zone_counts;
pub mod zones;
