//! Tokens of assignments.

use cell_core_values::name::Name;

/// A sign of the language: an operator, a bracket or a separator.
#[derive(Clone, Copy, Debug, PartialEq, Eq)]
pub enum Sign {
    KnownAnd,
    KnownOr,
    And,
    Or,
    LessEqual,
    GreaterEqual,
    Equal,
    NotEqual,
    Plus,
    Minus,
    Star,
    Slash,
    Percent,
    Less,
    Greater,
    Exclamation,
    Question,
    Colon,
    OpenParenthesis,
    CloseParenthesis,
    OpenBracket,
    CloseBracket,
    Comma,
    Assign,
}

/// A token: a number of at most 2147483647, a name, or a sign.
#[derive(Drop)]
pub enum Token {
    Number(u32),
    Name(Name),
    Sign(Sign),
}

/// A token and the column of its first byte, from 1.
#[derive(Drop)]
pub struct TokenAtColumn {
    pub token: Token,
    pub column: u32,
}
