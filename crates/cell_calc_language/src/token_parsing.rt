//! Parses tokens into an assignment.

ghost use Rattle.std.specs.Prelude.{◌≡◌, ◌<◌, ◌≤◌, [], ◌∷◌, None, length, IfOk, IfErr, IfSome, IfNone};
ghost use Rattle.cell_calc_language.specs.declared.assignment.Assignment.{Assignment};
ghost use Rattle.cell_calc_language.specs.declared.token_parsing.ParseStop.TheVariants.{Memory};
ghost use Rattle.cell_calc_language.specs.Assignment.{AreTokensOfAssignment};
ghost use Rattle.cell_calc_language.specs.GrammarFault.{IsGrammarFaultOrMemory, first_token_column_or_end};
ghost use Rattle.cell_calc_grammar.specs.TokensRead.{first_continuing_operator, offset_reading, distance_reading, read_both_offsets, ContinuesWithOperator, TokenIsNotSign};
ghost use Rattle.cell_calc_language.specs.Stopping.{ResultAgreesWithPartReading, RestFollowsSign, fault_of_parser_stop};
ghost use Rattle.cell_calc_grammar.specs.Token.{head_token, NumberTokensAreCategories};

use crate::assignment::Assignment;
use crate::expr::Expr;
use crate::expression_reader::read_expression;
use cell_calc_grammar::calc_fault::{CalcFault, CalcKind};
use cell_calc_grammar::operator::{Operator, operator_of_token, right_operand_level};
use cell_calc_grammar::token::{Sign, Token, TokenAtColumn};
use cell_core_values::name::Name;
use std::alloc::Global;

/// Why the parser stopped.
#[derive(Clone, Copy)]
pub(crate) enum ParseStop<'a> {
    Memory,
    /// An error, and the tokens that start at it.
    At(CalcKind, &'a [TokenAtColumn]),
}

fn first_token_column_or_end(end: u32, tokens: &[TokenAtColumn]) -> u32
    ensures { result ≡ first_token_column_or_end end tokens.now }
{
    match tokens {
        [] => end,
        [placed, ..] => placed.column,
    }
}

fn fault_of_parse_stop(end: u32, stop: ParseStop) -> CalcFault
    ensures { result ≡ fault_of_parser_stop end stop.entry }
{
    match stop {
        ParseStop::Memory => CalcFault {
            kind: CalcKind::Memory,
            column: 0,
        },
        ParseStop::At(kind, rest) => CalcFault {
            kind,
            column: first_token_column_or_end(end, rest),
        },
    }
}

// Returns the first token and the remaining tokens.
pub(crate) fn split_first_token<'a>(
    tokens: &'a [TokenAtColumn],
) -> Option<(&'a TokenAtColumn, &'a [TokenAtColumn])>
    ensures some { IfSome result (λ x. tokens.now ≡ x.0.now ∷ x.1.now) }
    ensures none { IfNone result (tokens.now ≡ []) }
{
    match tokens {
        [] => None,
        [placed, rest @ ..] => Some((placed, rest)),
    }
}

// Returns the tokens after a sign, if the first token is this sign.
pub(crate) fn tokens_after_sign<'a>(
    sign: Sign,
    tokens: &'a [TokenAtColumn],
) -> Option<&'a [TokenAtColumn]>
    ensures some { IfSome result (λ rest. RestFollowsSign sign tokens.now rest.now) }
    ensures none { IfNone result (TokenIsNotSign sign (head_token tokens.now)) }
    ensures shorter { IfSome result (λ rest. length rest.now < length tokens.now) }
{
    let (placed, rest) = split_first_token(tokens)?;
    match &placed.token {
        Token::Sign(found) if *found == sign => Some(rest),
        _ => None,
    }
}

// Returns the first token as an operator, if it continues an expression of this level, and the remaining tokens.
pub(crate) fn split_operator_of_level<'a>(
    level: u32,
    tokens: &'a [TokenAtColumn],
) -> Option<(Operator, &'a [TokenAtColumn])>
    ensures some { IfSome result (λ x. ContinuesWithOperator level tokens.now x.0 x.1.now) }
    ensures none { IfNone result (first_continuing_operator level tokens.now ≡ None) }
    ensures shorter { IfSome result (λ x. length x.1.now < length tokens.now) }
{
    let (placed, rest) = split_first_token(tokens)?;
    let operator = operator_of_token(&placed.token)?;
    if right_operand_level(operator) < level {
        Some((operator, rest))
    } else {
        None
    }
}

pub(crate) fn name_copy<'a>(alloc: Global, name: &Name) -> Result<Name, ParseStop<'a>>
    ensures ok { IfOk result (λ copy. copy ≡ name.now) }
    ensures err { IfErr result (λ e. e ≡ Memory) }
{
    match name.copy(alloc) {
        Ok(copy) => Ok(copy),
        Err(_) => Err(ParseStop::Memory),
    }
}

fn read_offset_distance<'a>(
    tokens: &'a [TokenAtColumn],
) -> Result<(u32, &'a [TokenAtColumn]), ParseStop<'a>>
    ensures reported { ResultAgreesWithPartReading (distance_reading tokens.now) result }
    ensures near { IfOk result (λ x. x.0 ≤ 255) }
    ensures shorter { IfOk result (λ x. length x.1.now < length tokens.now) }
{
    let Some((placed, rest)) = split_first_token(tokens) else {
        return Err(ParseStop::At(CalcKind::Expected, tokens));
    };
    match &placed.token {
        Token::Number(n) => {
            if *n <= 255 {
                Ok((*n, rest))
            } else {
                Err(ParseStop::At(CalcKind::BadOffset, tokens))
            }
        }
        _ => Err(ParseStop::At(CalcKind::Expected, tokens)),
    }
}

fn read_offset<'a>(tokens: &'a [TokenAtColumn]) -> Result<(i32, &'a [TokenAtColumn]), ParseStop<'a>>
    ensures reported { ResultAgreesWithPartReading (offset_reading tokens.now) result }
    ensures shorter { IfOk result (λ x. length x.1.now < length tokens.now) }
{
    if let Some(after) = tokens_after_sign(Sign::Minus, tokens) {
        let (n, rest) = read_offset_distance(after)?;
        return Ok((-(n as i32), rest));
    }
    if let Some(after) = tokens_after_sign(Sign::Plus, tokens) {
        let (n, rest) = read_offset_distance(after)?;
        return Ok((n as i32, rest));
    }
    let (n, rest) = read_offset_distance(tokens)?;
    Ok((n as i32, rest))
}

// Reads both offsets and the closing bracket.
pub(crate) fn read_both_offsets<'a>(
    tokens: &'a [TokenAtColumn],
) -> Result<((i32, i32), &'a [TokenAtColumn]), ParseStop<'a>>
    ensures reported { ResultAgreesWithPartReading (read_both_offsets tokens.now) result }
    ensures shorter { IfOk result (λ x. length x.1.now < length tokens.now) }
{
    let (down, rest) = read_offset(tokens)?;
    let Some(after) = tokens_after_sign(Sign::Comma, rest) else {
        return Err(ParseStop::At(CalcKind::Expected, rest));
    };
    let (right, rest) = read_offset(after)?;
    let Some(after) = tokens_after_sign(Sign::CloseBracket, rest) else {
        return Err(ParseStop::At(CalcKind::Expected, rest));
    };
    Ok(((down, right), after))
}

/// Returns the assignment that the tokens of a text stand for. `end` is the column after the text.
pub(crate) fn assignment_of_tokens(
    alloc: Global,
    end: u32,
    tokens: &[TokenAtColumn],
) -> Result<Assignment, CalcFault>
    requires { NumberTokensAreCategories tokens.now }
    ensures ok { IfOk result (λ a. AreTokensOfAssignment tokens.now a) }
    ensures only { IfOk result (λ a. (b : Assignment) → AreTokensOfAssignment tokens.now b
        → b ≡ a) }
    ensures fault { IfErr result (λ fault. IsGrammarFaultOrMemory end tokens.now fault) }
{
    let Some((placed, rest)) = split_first_token(tokens) else {
        return Err(fault_of_parse_stop(end, ParseStop::At(CalcKind::Expected, tokens)));
    };
    let Token::Name(name) = &placed.token else {
        return Err(fault_of_parse_stop(end, ParseStop::At(CalcKind::Expected, tokens)));
    };
    let Some(after) = tokens_after_sign(Sign::Assign, rest) else {
        return Err(fault_of_parse_stop(end, ParseStop::At(CalcKind::Expected, rest)));
    };
    let target = match name_copy(alloc, name) {
        Ok(target) => target,
        Err(stop) => return Err(fault_of_parse_stop(end, stop)),
    };
    let (steps, left) = match read_expression(alloc, after) {
        Ok(read) => read,
        Err(stop) => return Err(fault_of_parse_stop(end, stop)),
    };
    match split_first_token(left) {
        None => Ok(Assignment {
            target,
            expr: Expr { steps },
        }),
        Some(_) => Err(fault_of_parse_stop(end, ParseStop::At(CalcKind::Expected, left))),
    }
}
