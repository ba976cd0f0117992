//! Counts combinations of several maps in tables, and prints tables and cells (GRASS manual: r.stats).
//!
//! - `tallying`: `tally` returns the table of some maps of a shelf, given by their indices
//! - `table`: `Table` contains each combination that occurs with its count, in order; `all` returns its
//!   entries, and `after` the entries after a combination
//! - `format`: `TableFormat`, the separator, the null text, labels (`-l`) and counts (`-c`)
//! - `printing`: `write_table`, and `label_of_cell`, the label in a line; `printed_cells`: `write_line_for_each_cell`, one line per
//!   cell (`-1`)
//! - `law`: there is exactly one table; if nothing is left out, its counts add up to the number of
//!   cells in the region
//! - re-exported from `cell_stats_combinations`: `combination`, `combination_text`, `skip`
//!
//! A map of four cells, picked 16 times. Each entry has a count and a combination:
//!
//! ```
//! let shelf = shelf_of(rt.alloc(), &[&[5, NULL_CATEGORY, 5, -3]], 2)?;
//! let table = table_of(rt.alloc(), &shelf, &[0; 16])?;
//! let wanted: [(i32, u64); 3] = [(-3, 1), (5, 2), (NULL_CATEGORY, 1)];
//! assert_same!(rt; (table.width(), table.len()), (16, wanted.len()));
//! ```
#![tactic(auto)]

pub mod format;
pub mod law;
pub mod printed_cells;
pub mod printing;
pub mod table;
pub mod tallying;

pub use cell_stats_combinations::{combination, combination_text, skip};
