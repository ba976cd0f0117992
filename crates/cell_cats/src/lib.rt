//! Reclassifies maps with rules (GRASS manual: r.reclass). Re-exports `clump` and `clump_with` of
//! `cell_clumps`.
//!
//! - `rules`: `Rules`, a list of rules to which `add_line` adds a line, or returns its `RuleFault`; the
//!   last rule that lists a category applies
//! - `reclassing`: `reclass`, which returns the map with the categories and labels of the rules
//! - specs/Rule.antt: the meaning of rules; specs/RuleLine.antt: which line spells which rule; comments
//!   and commas are our own choice (profile)
//! - `law`: a line is read as a rule if and only if it spells that rule; `* = *` keeps every cell
//! - private: `line` and `rule`, a line and its rule; `pieces`, the number line cut at the ends of
//!   ranges; `byte_table`, the new categories of all bytes; `known`, a cache of new categories
//!
//! A case of the tests: lines, categories of a map, its new categories, and a label:
//!
//! ```
//! lines: &[b"1 thru 3 = 7 low", b"2 = NULL", b"* = *"],
//! given: &[1, 2, 3, 9, NULL_CATEGORY, 0, 4, -7],
//! wanted: &[7, NULL_CATEGORY, 7, 9, NULL_CATEGORY, 0, 4, -7],
//! category: 7,
//! label: Some(b"low"),
//! ```
#![tactic(auto)]

mod byte_table;
mod known;
pub mod law;
mod line;
mod pieces;
pub mod reclassing;
pub mod rule;
pub mod rules;

pub use cell_clumps::clump::{Joining, clump, clump_with};
