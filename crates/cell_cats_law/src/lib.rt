//! Proves laws about clumps, tables and reclassified maps. Contains no executable code.
//!
//! - `numbering_law`: every map has a clump map
//! - `law`: the table of a map and its clump map counts each clump in full, under one category, and the
//!   clumps of a category add up to it; connecting corners only merges clumps; reclassifying a tile
//!   gives the tile of the reclassified map
//! - `tables_law`: the pages of a table, one after another, are the table; reclassifying neither loses
//!   a cell nor counts one twice
//! - `sizes_law`: clump sizes are the table of the clump map, and the sizes of the clumps of tiles add up to
//!   the sizes of the full map
#![tactic(auto)]

pub mod law;
pub mod numbering_law;
pub mod sizes_law;
pub mod tables_law;
