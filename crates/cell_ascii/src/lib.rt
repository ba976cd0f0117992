//! Reads grids, complete or row by row, and writes them (GRASS manual: r.in.ascii, r.out.ascii).
//!
//! - `grid_reader`: `read_map` reads a source into a map; `GridReader` reads it row by row
//! - `grid_fault`: `GridFault`, the first error with its line, re-exported from
//!   `cell_ascii_meaning`
//! - `writer`: `write_map`, re-exported from `cell_ascii_writer`
//! - `law`: laws about reading, re-exported from `cell_ascii_law` and `cell_ascii_law_faults`
//! - private: `opening` reads the header and the first word after it; `row_pushing` appends rows to a map
//! - `known_sources`: the law that clauses about supposed contents hold for known bytes
//! - `short_cells`, `word_table`: fast ways to read buffered cells, between which `pace` of
//!   `cell_ascii_lanes` chooses. They read words in place, look up words that occurred before, and
//!   convert numbers digit by digit. They do not affect results.
//! - `byte_words`, `number_words`: read short words as bytes, and numbers two at a time, with vector
//!   instructions
//!
//! `GRID` is a text with three rows and four columns, which the source delivers seven bytes at a time:
//!
//! ```
//! let source = MemorySource::new(GRID.to_vec(rt.alloc())?, 7, false);
//! let map = read_map(rt.alloc(), source).map?;
//! assert_same!(rt; (map.region().rows(), map.region().cols()), (3, 4));
//! ```
#![tactic(auto)]

pub mod byte_words;
pub mod grid_reader;
pub mod known_sources;
pub mod law;
pub mod number_words;
mod opening;
mod row_pushing;
pub mod short_cells;
pub mod word_table;

pub use cell_ascii_meaning::grid_fault;
pub use cell_ascii_writer::writer;
