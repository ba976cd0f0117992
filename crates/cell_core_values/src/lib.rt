//! Defines the values that maps are made of, and reads words and numbers from lines of text.
//!
//! Cells and regions follow the GRASS manual (r.in.ascii, g.region). Names, blanks and the limits of regions are our
//! own choice (profile).
//!
//! - `cell`: `Cell`, a category from -2147483647 to 2147483647, or null
//! - `region`: `Region`, four edges in units of 10^-8, and 1 to 65535 rows and columns
//! - `name`: `Name`, 1 to 64 bytes; `Names`, distinct names, each with its index
//! - `memory`: `Memory`, the error of a call that ran out of memory
//! - `blanks`, `words`: blanks, words, parts between commas, `KEY=VALUE`
//! - `whole_numbers`: whole numbers in decimal, and their range for categories
//! - `small_cells`: rows of nulls and categories from 0 to 254, stored in one byte per cell
//!
//! Edges 4, 3, 2 and 1, six rows and five columns:
//!
//! ```
//! let region = Region::new(400000000, 300000000, 200000000, 100000000, 6, 5)?;
//! assert_same!(rt; (region.north(), region.south()), (400000000, 300000000));
//! assert_same!(rt; (region.east(), region.west()), (200000000, 100000000));
//! assert_same!(rt; (region.rows(), region.cols()), (6, 5));
//! ```
#![tactic(auto)]

pub mod blanks;
pub mod cell;
pub mod memory;
pub mod name;
pub mod region;
pub mod small_cells;
pub mod whole_numbers;
pub mod words;
