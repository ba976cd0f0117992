//! Reads the parts of a grid below its rows: words, their lines, the header, and the cell that a word
//! denotes (GRASS manual: r.in.ascii).
//!
//! - `scanner`: `Scanner` reads the words of a source with their lines, from 1; a word has at most 64
//!   bytes, and a run of blanks at most 1,048,576 (profile)
//! - `header_reading`: `read_header` passes each header line to `HeaderKeys`
//! - `keys`: `HeaderKeys`, the keys read so far; `key_names`: the nine keys
//! - `header`: `Header`, the region, null text and multiplier; `cell_of_word`
//! - `number`: `side`, a number of rows or columns; `coordinate`, in units of 10^-8
//! - private: `input`, a source with a buffer of 65,536 bytes; `header_null`, the null text
//!
//! Coordinates:
//!
//! ```
//! assert_same!(rt; coordinate_of_text(b"10.50"), Some(1050000000));
//! assert_same!(rt; coordinate_of_text(b"-.25"), Some(-25000000));
//! assert_same!(rt; coordinate_of_text(b"north"), None);
//! ```
#![tactic(auto)]

pub mod header;
mod header_null;
pub mod header_reading;
mod input;
pub mod key_names;
pub mod keys;
pub mod number;
pub mod scanner;
