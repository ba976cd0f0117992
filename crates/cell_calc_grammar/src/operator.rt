//! Operators between two operands.

ghost use Rattle.std.specs.Prelude.{◌≡◌};
ghost use Rattle.cell_calc_grammar.specs.Operator.{operator_of_token, right_operand_level};

use crate::token::{Sign, Token};

/// An operator between two operands (r.mapcalc manual, "Operators and order of precedence").
#[derive(Clone, Copy, Debug, PartialEq, Eq)]
pub enum Operator {
    Times,
    Divide,
    Modulo,
    Plus,
    Minus,
    Less,
    LessEqual,
    Greater,
    GreaterEqual,
    Equal,
    NotEqual,
    And,
    Or,
    /// `&&&`: 0 if either operand is 0, even if the other is null.
    KnownAnd,
    /// `|||`: 1 if either operand is a number other than 0, even if the other is null.
    KnownOr,
}

/// Returns the operator that a token stands for between two operands.
pub fn operator_of_token(token: &Token) -> Option<Operator>
    ensures { result ≡ operator_of_token token.now }
{
    let Token::Sign(sign) = token else {
        return None;
    };
    match sign {
        Sign::Star => Some(Operator::Times),
        Sign::Slash => Some(Operator::Divide),
        Sign::Percent => Some(Operator::Modulo),
        Sign::Plus => Some(Operator::Plus),
        Sign::Minus => Some(Operator::Minus),
        Sign::Less => Some(Operator::Less),
        Sign::LessEqual => Some(Operator::LessEqual),
        Sign::Greater => Some(Operator::Greater),
        Sign::GreaterEqual => Some(Operator::GreaterEqual),
        Sign::Equal => Some(Operator::Equal),
        Sign::NotEqual => Some(Operator::NotEqual),
        Sign::And => Some(Operator::And),
        Sign::Or => Some(Operator::Or),
        Sign::KnownAnd => Some(Operator::KnownAnd),
        Sign::KnownOr => Some(Operator::KnownOr),
        _ => None,
    }
}

/// The highest level, at which any operator may occur between operands.
pub const TOP_OPERATOR_LEVEL: u32 = 6;

/// Returns the level of an operator's right operand, which is one below the operator's own level. Operators of level 0
/// bind most tightly.
pub fn right_operand_level(operator: Operator) -> u32
    ensures { result ≡ right_operand_level operator }
{
    match operator {
        Operator::Times | Operator::Divide | Operator::Modulo => 0,
        Operator::Plus | Operator::Minus => 1,
        Operator::Less | Operator::LessEqual => 2,
        Operator::Greater | Operator::GreaterEqual => 2,
        Operator::Equal | Operator::NotEqual => 3,
        Operator::And | Operator::KnownAnd => 4,
        Operator::Or | Operator::KnownOr => 5,
    }
}
