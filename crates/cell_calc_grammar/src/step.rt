//! Steps of expressions.

use crate::function::Function;
use crate::operator::Operator;

/// A step of an expression in postfix order, after the steps of its operands. `L` identifies a map.
#[derive(Clone, Copy, Drop)]
pub enum Step<L> {
    Number(u32),
    /// The cell of a map `down` rows below and `right` columns to the right.
    Map { leaf: L, down: i32, right: i32 },
    Negated,
    Not,
    Binary(Operator),
    /// A function and its number of arguments.
    Call(Function, usize),
}
