//! Parses a line of text into an r.mapcalc assignment, or returns its first error (GRASS manual:
//! r.mapcalc). `cell_calc_grammar` defines expressions and how they are read.
//!
//! Defines the value of an expression at one cell, and how far from the cell it reads. Results out of
//! the range of categories, and cells outside the region, are null (profile).
//!
//! - `assignment`: `parse` reads `NAME = EXPRESSION` into an `Assignment`
//! - `expr`: `Expr`, an expression; `first_unknown` finds its first map that is not in a list of names
//! - `language_law`: tokens stand for one assignment or have one first error
//! - specs/Value.antt: `value`, the meaning of an expression; specs/Applied.antt: its operators and
//!   functions
//! - `cell_operators`: operators and functions as calls: `sum`, `quotient`, `cell_chosen_by_condition`, ..
//! - `binding`: `resolve` replaces map names with indices into a list
//! - `bound`: `Bound` is an expression over indices; `top` returns one more than the largest index;
//!   `reach` returns how many rows it reads above and below
//! - `compacting`: `renumbered_over_read_maps` returns the expression over only the maps that it reads;
//!   `steps_of_expression`: `of_steps` returns the expression with given steps
//! - private: `expression_reader`, `token_parsing`, `unknown`
//! - re-exported from `cell_calc_grammar`: `calc_fault`, `function`, `operator`, `token`, `tokens`
//!
//! Texts, each with the kind and column of its error:
//!
//! ```
//! (b"x = 1.5", CalcKind::FloatNumber, 5),
//! (b"x = 1 +", CalcKind::Expected, 8),
//! (b"x = foo(1)", CalcKind::UnknownFunction, 5),
//! ```
//!
//! The map `g` one row below and one row above (`bound_of` calls `parse` and `resolve`):
//!
//! ```
//! let bound = bound_of(alloc, &worked_names(alloc)?, b"g[1,0] + g[-1,0]")?;
//! assert_same!(rt; bound.top(), 1);
//! if bound.top() > 0 {
//!     assert_same!(rt; bound.reach(0), (1, 1));
//! }
//! ```
#![tactic(auto)]

pub mod assignment;
pub mod binding;
pub mod bound;
pub mod cell_operators;
pub mod compacting;
pub mod expr;
mod expression_reader;
pub mod language_law;
pub mod steps_of_expression;
mod token_parsing;
mod unknown;

pub use cell_calc_grammar::{calc_fault, function, operator, token, tokens};
