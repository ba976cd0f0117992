//! Joins the borders of tiles to the clumps of the full map, one row of tiles at a time.
//!
//! The number of clumps that begin in each row of each tile is enough to label all clumps in the order of their first
//! cells. Memory therefore grows with the seams, not with the clumps.
//!
//! - `border`: `TileBorder`: four sides, each with its cells and their clump numbers, and the counts by row; `begun`:
//!   `begun_clump_counts_by_row` computes these counts; `bordering`: `border_of_tile` makes the border of a map
//! - `joiner`: `TileJoiner`: `add` accepts a row of tiles from the left, and `finish` returns `JoinedTiles`, the
//!   numbers in the full map as runs, and the number of clumps
//! - `law`: from borders to labels, and from labels to numbers; the main law is `joined_tiles_give_clump_numbers`
//! - `tile_rows`: one row of tiles; `clump_count_plus_tile_row` counts its clumps
//! - private, in the order of work: `row_labels`, `spans`: its labels; `marks`: cells
//!   along a seam; `meetings`: the pairs there; `label_runs`, `run_lines`: the result
//!
//! In the tests, `row_of_tiles` makes the borders of a row:
//!
//! ```
//! let mut joiner = TileJoiner::new(alloc, joining);
//! let mut top: u32 = 0;
//! for height in heights {
//!     let row = row_of_tiles(alloc, whole, top, *height, widths, joining, &mut numbered)?;
//!     joiner = joined(joiner.add(alloc, row))?;
//!     top = top.saturating_add(*height);
//! }
//! let all = joiner.finish(alloc)?;
//! ```
#![tactic(auto)]

pub mod begun;
pub mod border;
pub mod bordering;
pub mod joiner;
mod label_runs;
pub mod law;
mod marks;
mod meetings;
mod row_labels;
mod run_lines;
mod spans;
pub mod tile_rows;
