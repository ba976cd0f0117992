//! Join requests: the borders of a grid of tiles, tables, patches of tiles, or patch tables, whose first column is the
//! number of a patch in its tile. The response has the patches' numbers in the full map, the sums of the tables, the
//! patches of the full map, or the sums with the numbers of the full map. docs/pipe.md defines the bytes (profile).
//!
//! - `join_request`: `read_join_request` reads a request, or reports the first error; rcell_pipe_borders reads borders
//! - `join_response`: `join_request` writes the response
//! - specs/JoinRequests.antt, specs/TableEntries.antt, specs/PatchLists.antt and specs/PatchTables.antt: what the bytes
//!   mean; specs/JoinEnds.antt: the response
//! - `law`: the response numbers the patches of the full map, or has its table
//! - private: `table_reading` reads tables, `patch_runs` runs, `patch_parts` patches of tiles, which it joins,
//!   `patch_tables` patch tables; `sums` and `patch_sums` add up tables; `join_frame` writes the frames
//!
//! For example, two tiles of one cell each, both of category 7, are next to each other. Each side of a tile has the cell
//! 7 with the number 1, and one patch begins in the tile's row. The response has 1 patch and the runs (1, 1, 1, 1) and
//! (2, 1, 1, 1): patch 1 of each tile is patch 1 of the full map.
#![tactic(auto)]

mod join_frame;
pub mod join_request;
pub mod join_response;
pub mod law;
pub mod patch_parts;
mod patch_runs;
mod patch_sums;
pub mod patch_tables;
mod sums;
mod table_reading;
