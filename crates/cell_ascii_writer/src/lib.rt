//! Writes maps as grids (GRASS manual: r.out.ascii).
//!
//! - `writer`: `write_map` writes a map to a sink and returns the number of bytes; `write_grid` writes it
//!   through an `OutputBlock`
//! - private: `cells_in_line` writes the cells of a row; `fields` stores a space and the text of a cell in eight bytes
//!
//! `map` was read from `GRID`, and writing it reproduces this text:
//!
//! ```
//! let length = write_map(&map, b"*", &mut sink)?;
//! assert_same!(rt; length, GRID.len() as u64);
//! ```
#![tactic(auto)]

mod cells_in_line;
mod fields;
pub mod writer;
