//! Defines combinations of the categories of several maps, walks along the rows of these maps, and lists
//! entries: combinations, each with a number of cells (GRASS manual: r.stats). Null is last in the order
//! (profile).
//!
//! - `combination`: `Combo`, one cell of each map, ordered by the first, then the second, ..
//! - `combination_text`: `Combo::read` reads cells separated by commas, or returns a `ComboFault`
//! - `skip`: `Skip`, which combinations a table leaves out (flags `-n` and `-N`)
//! - `selection`: `TabulatedMaps`, the maps of a shelf that are tabulated, and the `Skip`
//! - `cursor`: `RowCursor` walks along a row by runs; `advance_cursors_and_write_cells` walks over several maps at once
//! - `law`: a text is read as a combination if and only if it spells one
//! - `ordered`: `sorted_entries_with_summed_counts` sorts a list of entries, with one entry per combination
//! - `gathered`: `CountedCombinations` keeps combinations of many maps side by side, and counts cells of them
//! - `pair_place`: `CombinationCountSlot` keeps a combination of one or two maps with its count
//! - `scattered`: `CombinationRanks` numbers combinations in their order; `sort_slots_by_digit` sorts places by these numbers, digit by digit
//! - `codes`: `code_of_cell` numbers a cell
//!
//! Two categories, or null, from `text`:
//!
//! ```
//! let combo = Combo::read(alloc, text, 2)?;
//! if combo.len() != 2 {
//!     return Err(ComboFault::BadWidth);
//! }
//! let first = combo.get(0).get().unwrap_or(NULL_CATEGORY);
//! ```
#![tactic(auto)]

pub mod codes;
pub mod combination;
pub mod combination_text;
pub mod cursor;
pub mod gathered;
pub mod law;
pub mod ordered;
pub mod pair_place;
pub mod scattered;
pub mod selection;
pub mod skip;
