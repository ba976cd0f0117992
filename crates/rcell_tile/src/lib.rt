//! Runs a script over a tile of a map: a rectangle, sent with a halo of surrounding rows and columns.
//!
//! - `tile_place`: `TilePlace`: the size of the full map, the rectangle of the maps with their halo, and the tile
//! - `run_shelves`: `RunShelves`: the maps of a run over full maps or over a tile; `making_in_tiles` adds the map that a
//!   command makes
//! - `halo_margins`: `first_halo_fault`: the first statement for which the halo is too small; `depth_exceeds_margin`:
//!   whether a map has too little halo for a question
//! - `tile_maps`: maps without their halo, and with null in it
//! - `law`: `planned_halo_is_enough`: the halo computed from a script's plan is enough, and no smaller halo is;
//!   `tile_runs_have_full_map_cells`: after the same statements, a tile has the full maps' cells;
//!   `tables_after_runs_merge_into_full_table`: tables of tiles merge into the table of the full maps
//!
//! In a tile, `row()` and `col()` count in the full map, and `nrows()` and `ncols()` are its numbers. r.clump numbers the
//! clumps of the tile alone.
#![tactic(auto)]

pub mod halo_margins;
pub mod law;
pub mod making_in_tiles;
pub mod run_shelves;
pub mod tile_maps;
pub mod tile_place;
