//! Errors in assignments.

use thiserror::Error;

/// The kind of an error in an assignment.
#[derive(Clone, Copy, Debug, PartialEq, Eq, Error)]
pub enum CalcKind {
    #[error("bad byte")]
    BadByte,
    #[error("bad number")]
    BadNumber,
    #[error("number not whole")]
    FloatNumber,
    #[error("unexpected token")]
    Expected,
    #[error("unknown function")]
    UnknownFunction,
    #[error("wrong number of arguments")]
    Arguments,
    #[error("offset out of range")]
    BadOffset,
    #[error("expression too long")]
    TooLong,
    #[error("bad name")]
    BadName,
    #[error("no memory")]
    Memory,
    #[error("unknown map")]
    UnknownMap,
}

/// An error and its column, counted in bytes from 1. The column is 0 if memory ran out.
#[derive(Clone, Copy, Debug, PartialEq, Eq, Error)]
#[error("{kind} at column {column}")]
pub struct CalcFault {
    pub kind: CalcKind,
    pub column: u32,
}
