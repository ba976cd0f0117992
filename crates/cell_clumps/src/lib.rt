//! Finds the clumps of a map and numbers them (GRASS manual: r.clump).
//!
//! A clump is a connected component of equal non-null cells. Cells are adjacent if they share an edge
//! or, if requested, a corner. Clumps are numbered 1, 2, 3 and so on in the order of their first cells,
//! row by row (profile).
//!
//! - `clump`: `clump_with` returns the clump map for a `Joining`; `clump` does so by edges
//! - specs/Areas.antt: `IsClumpMapOf`, the definition of a clump map
//! - `law`: a map has one clump map, and its numbers are 1 to the number of clumps
//! - private, in the order of work: `scan` labels cells row by row, with a new label for each cell that
//!   shares none with an earlier neighbour; `near`, the earlier neighbours of a cell; `labels`, the
//!   union-find over labels; `kept_labels`, the labels of a row; `clump_numbers`, the number of each
//!   label; `row_numbers` replaces labels with numbers
//! - private, for maps with long runs: `run_scan` labels run by run; `above`, the row above as runs
//!
//! Categories 1 2 over 2 1 are four clumps by edges:
//!
//! ```
//! let region = Region::new(1, 0, 1, 0, 2, 2)?;
//! let mut builder = MapBuilder::new(rt.alloc(), region);
//! builder.push_row(&[one, other])?;
//! builder.push_row(&[other, one])?;
//! let numbers = clump(rt.alloc(), &builder.finish())?;
//! let below = (numbers.cell(1, 0).get(), numbers.cell(1, 1).get());
//! assert_eq!(rt; (below, numbers.label(1)), ((Some(3), Some(4)), None));
//! ```
#![tactic(auto)]

mod above;
pub mod clump;
mod clump_numbers;
mod kept_labels;
mod labels;
pub mod law;
mod near;
mod row_numbers;
mod run_scan;
mod scan;
