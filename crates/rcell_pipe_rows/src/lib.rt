//! Rows of a map in a request to `rcell-pipe`, as bytes and as cells. docs/pipe.md defines the bytes (profile).
//!
//! - `kind`: `CellType`, the seven types of numbers
//! - `raw_row`: `read_raw_row_as_cells` converts a row of bytes to cells; `packed_row` does so in place for `u8`
#![tactic(auto)]

pub mod kind;
pub mod packed_row;
pub mod raw_row;
