//! Evaluates expressions along the rows of maps (GRASS manual: r.mapcalc).
//!
//! Users need only this crate; it re-exports `parse`, `resolve` and their types.
//!
//! - `rows_of_values`: `eval_row` returns the values along a row, given one window per map
//! - `window`: `RowWindow` holds the rows of a map around a centre row, which moves down; cells outside
//!   the map are null (profile); private `window_rows` stores its rows
//! - `rows`, `calls`: apply operators and functions to rows of cells
//! - `common_stretches`: finds spans of columns in which no map changes, so that one value is enough
//! - `by_category`: expressions whose value depends only on the category of one cell
//! - private: `along` evaluates an expression step by step, in strips of 1,024 columns, with a stack of
//!   operands (`operand`, `strip`); `in_place` decides whether one value per span is enough
//!
//! A window with one row above and one below the centre, over a map of three rows:
//!
//! ```
//! let Ok(mut window) = RowWindow::new(rt.alloc(), &map, 1, 1) else {
//!     return Err("no memory".into());
//! };
//! assert_same!(rt; (window.centre(), window.capacity()), (0, 3));
//! ```
#![tactic(auto)]

mod along;
pub mod by_category;
pub mod calls;
pub mod common_stretches;
mod in_place;
mod operand;
pub mod rows;
pub mod rows_of_values;
mod strip;
pub mod window;
mod window_rows;

pub use cell_calc_language::assignment::{Assignment, parse};
pub use cell_calc_language::binding::resolve;
pub use cell_calc_language::bound::Bound;
pub use cell_calc_language::calc_fault::{CalcFault, CalcKind};
pub use cell_calc_language::expr::Expr;
pub use rows_of_values::eval_row;
pub use window::RowWindow;
