//! Finds the most frequent cell in each column of a set of rows (GRASS manual: r.mapcalc, `mode`; profile: `nmode`).
//!
//! - specs/ColumnCells.antt: the cells of rows at a column
//! - `modes`: `mode` and `write_modes_ignoring_null` over rows of arguments; many arguments are sorted
//! - private: `mode_lanes` compares few arguments with vector instructions, 16 columns at a time
#![tactic(auto)]

mod mode_lanes;
pub mod modes;
