//! Splits an assignment into tokens.

ghost use Rattle.std.specs.Prelude.{◌≡◌, ◌+◌, ◌<◌, ◌≤◌, IfOk, IfErr, IsTrue, Ok, true, length, false, nat_eq, [], ◌∷◌, ◌||◌, ◌==◌};
ghost use Rattle.std.specs.List.{list_all, list_any, prefix_len, starts_with};
ghost use Rattle.cell_core_values.specs.Name.{is_name_byte, starts_like_name};
ghost use Rattle.cell_calc_grammar.specs.TokenSpelling.{TextSpellsTokens, TextSpellsOneTokenList};
ghost use Rattle.cell_calc_grammar.specs.Tokens.{sign_of_bytes, three_byte_signs, two_byte_signs, sign_length_at_start, first_token_length, is_point_or_exponent_byte, fault_kind_of_invalid_number, checked_name_token, checked_number_token, name_or_number_token, sign_token, token_of_bytes, next_token, token_list_of_text, token_fault, IsExpectedOrMemoryFault};
ghost use Rattle.cell_calc_grammar.specs.parts.Reporting.{IsExpectedResultOrMemoryFault};
ghost use Rattle.cell_calc_grammar.specs.declared.calc_fault.CalcKind.TheVariants.{FloatNumber, BadNumber};

use crate::calc_fault::{CalcFault, CalcKind};
use crate::token::{Sign, Token, TokenAtColumn};
use cell_core_values::blanks::is_blank;
use cell_core_values::name::{Name, NameFault, is_name_byte, starts_like_name};
use cell_core_values::whole_numbers::{are_digits, value_of_digits};
use std::alloc::Global;

/// The maximum number of tokens in an assignment (profile).
const TOKEN_LIMIT: usize = 1000;

/// The largest category, as in the CELL type of GRASS.
const LARGEST_NUMBER_TOKEN: u64 = 2147483647;

/// The error of running out of memory, which has no column.
const OUT_OF_MEMORY_CALC_FAULT: CalcFault = CalcFault {
    kind: CalcKind::Memory,
    column: 0,
};

fn calc_fault_of_kind(kind: CalcKind, column: u32) -> CalcFault
    ensures { result ≡ token_fault kind column }
{
    CalcFault { kind, column }
}

fn are_name_bytes(bytes: &[u8]) -> bool
    ensures { result ≡ list_all is_name_byte bytes.now }
{
    bytes.iter().all(|b| is_name_byte(*b))
}

fn is_point_or_exponent_byte(b: u8) -> bool
    ensures { result ≡ is_point_or_exponent_byte b }
{
    b == b'.' || b == b'e' || b == b'E'
}

fn one_byte_sign(b: u8) -> Option<Sign>
    ensures { result ≡ sign_of_bytes (b ∷ []) }
{
    match b {
        b'+' => Some(Sign::Plus),
        b'-' => Some(Sign::Minus),
        b'*' => Some(Sign::Star),
        b'/' => Some(Sign::Slash),
        b'%' => Some(Sign::Percent),
        b'<' => Some(Sign::Less),
        b'>' => Some(Sign::Greater),
        b'!' => Some(Sign::Exclamation),
        b'?' => Some(Sign::Question),
        b':' => Some(Sign::Colon),
        b'(' => Some(Sign::OpenParenthesis),
        b')' => Some(Sign::CloseParenthesis),
        b'[' => Some(Sign::OpenBracket),
        b']' => Some(Sign::CloseBracket),
        b',' => Some(Sign::Comma),
        b'=' => Some(Sign::Assign),
        _ => None,
    }
}

fn two_byte_sign(first: u8, second: u8) -> Option<Sign>
    ensures { result ≡ sign_of_bytes (first ∷ second ∷ []) }
{
    match (first, second) {
        (b'&', b'&') => Some(Sign::And),
        (b'|', b'|') => Some(Sign::Or),
        (b'<', b'=') => Some(Sign::LessEqual),
        (b'>', b'=') => Some(Sign::GreaterEqual),
        (b'=', b'=') => Some(Sign::Equal),
        (b'!', b'=') => Some(Sign::NotEqual),
        _ => None,
    }
}

fn three_byte_sign(first: u8, second: u8, third: u8) -> Option<Sign>
    ensures { result ≡ sign_of_bytes (first ∷ second ∷ third ∷ []) }
{
    match (first, second, third) {
        (b'&', b'&', b'&') => Some(Sign::KnownAnd),
        (b'|', b'|', b'|') => Some(Sign::KnownOr),
        _ => None,
    }
}

fn word_length_at_start(text: &[u8]) -> usize
    ensures value { result ≡ prefix_len is_name_byte text.now }
    ensures within { result ≤ length text.now }
{
    text.iter().take_while(|b| is_name_byte(**b)).count()
}

fn sign_of_bytes(bytes: &[u8]) -> Option<Sign>
    ensures { result ≡ sign_of_bytes bytes.now }
{
    match bytes {
        [only] => one_byte_sign(*only),
        [first, second] => two_byte_sign(*first, *second),
        [first, second, third] => three_byte_sign(*first, *second, *third),
        _ => None,
    }
}

fn starts_with_three_byte_sign(text: &[u8]) -> bool
    ensures value { result ≡ list_any (λ s. starts_with nat_eq text.now s.0) three_byte_signs }
    ensures within { IsTrue result → 3 ≤ length text.now }
{
    text.starts_with(b"&&&") || text.starts_with(b"|||")
}

fn starts_with_two_byte_sign(text: &[u8]) -> bool
    ensures value { result ≡ list_any (λ s. starts_with nat_eq text.now s.0) two_byte_signs }
    ensures within { IsTrue result → 2 ≤ length text.now }
{
    match text {
        [first, second, ..] => two_byte_sign(*first, *second).is_some(),
        _ => false,
    }
}

#[tactic(auto, unfolding(crate::specs::Tokens::sign_length_at_start))]
fn sign_length_at_start(text: &[u8]) -> usize
    requires { 0 < length text.now }
    ensures value { result ≡ sign_length_at_start text.now }
    ensures some { 0 < result }
    ensures within { result ≤ length text.now }
{
    if starts_with_three_byte_sign(text) {
        3
    } else if starts_with_two_byte_sign(text) {
        2
    } else {
        1
    }
}

#[tactic(auto, unfolding(crate::specs::Tokens::first_token_length))]
fn first_token_length(text: &[u8]) -> usize
    requires { 0 < length text.now }
    ensures value { result ≡ first_token_length text.now }
    ensures some { 0 < result }
    ensures within { result ≤ length text.now }
{
    let run = word_length_at_start(text);
    if 0 < run {
        run
    } else {
        sign_length_at_start(text)
    }
}

fn has_point_or_exponent_byte(bytes: &[u8]) -> bool
    ensures { result ≡ list_any is_point_or_exponent_byte bytes.now }
{
    bytes.iter().any(|b| is_point_or_exponent_byte(*b))
}

fn fault_kind_of_invalid_number(bytes: &[u8]) -> CalcKind
    ensures { result ≡ fault_kind_of_invalid_number bytes.now }
{
    if has_point_or_exponent_byte(bytes) {
        CalcKind::FloatNumber
    } else {
        CalcKind::BadNumber
    }
}

fn number_token(digits: &[u8], column: u32) -> Result<Token, CalcFault>
    ensures { result ≡ checked_number_token column digits.now }
{
    let value = value_of_digits(digits);
    if value <= LARGEST_NUMBER_TOKEN {
        Ok(Token::Number(value as u32))
    } else {
        Err(calc_fault_of_kind(CalcKind::BadNumber, column))
    }
}

fn sign_token(bytes: &[u8], column: u32) -> Result<Token, CalcFault>
    ensures { result ≡ sign_token column bytes.now }
{
    match sign_of_bytes(bytes) {
        Some(sign) => Ok(Token::Sign(sign)),
        None => Err(calc_fault_of_kind(CalcKind::BadByte, column)),
    }
}

fn name_token(alloc: Global, bytes: &[u8], column: u32) -> Result<Token, CalcFault>
    requires starts { starts_like_name bytes.now ≡ true }
    requires all { list_all is_name_byte bytes.now ≡ true }
    ensures { IsExpectedResultOrMemoryFault result (checked_name_token column bytes.now) }
{
    match Name::read(alloc, bytes) {
        Ok(name) => Ok(Token::Name(name)),
        Err(NameFault::BadName) => Err(calc_fault_of_kind(CalcKind::BadName, column)),
        Err(NameFault::Memory) => Err(OUT_OF_MEMORY_CALC_FAULT),
    }
}

#[tactic(auto, unfolding(crate::specs::Tokens::name_or_number_token))]
fn name_or_number_token(alloc: Global, bytes: &[u8], column: u32) -> Result<Token, CalcFault>
    requires { list_all is_name_byte bytes.now ≡ true }
    ensures { IsExpectedResultOrMemoryFault result (name_or_number_token column bytes.now) }
{
    if starts_like_name(bytes) {
        name_token(alloc, bytes, column)
    } else if are_digits(bytes) {
        number_token(bytes, column)
    } else {
        Err(calc_fault_of_kind(fault_kind_of_invalid_number(bytes), column))
    }
}

fn token_of_bytes(alloc: Global, bytes: &[u8], column: u32) -> Result<Token, CalcFault>
    ensures { IsExpectedResultOrMemoryFault result (token_of_bytes column bytes.now) }
{
    if are_name_bytes(bytes) {
        name_or_number_token(alloc, bytes, column)
    } else {
        sign_token(bytes, column)
    }
}

// Returns the token of a piece that follows `count` other tokens.
fn next_token(
    alloc: Global,
    count: usize,
    bytes: &[u8],
    column: u32,
) -> Result<TokenAtColumn, CalcFault>
    ensures { IsExpectedResultOrMemoryFault result
        (next_token count (record { column = column; bytes = bytes.now })) }
{
    if count >= TOKEN_LIMIT {
        return Err(calc_fault_of_kind(CalcKind::TooLong, column));
    }
    let token = token_of_bytes(alloc, bytes, column)?;
    Ok(TokenAtColumn { token, column })
}

/// Returns the tokens of a text, each with the column of its first byte, counted in bytes from 1.
///
/// # Errors
///
/// The first error of the text, read from the left, with its column; or `Memory`, with column 0, if memory runs out. A
/// text has at most 1000 tokens (profile).
pub fn tokens(alloc: Global, text: &[u8]) -> Result<Vec<TokenAtColumn>, CalcFault>
    requires { length text.now ≤ 65535 }
    ensures ok { IfOk result (λ found. token_list_of_text text.now ≡ Ok found.items) }
    ensures err { IfErr result (λ reported. IsExpectedOrMemoryFault
        (token_list_of_text text.now) reported) }
    ensures spelled { IfOk result (λ found. TextSpellsTokens 1 text.now found.items) }
    ensures few { IfOk result (λ found. length found.items ≤ 1000) }
{
    let mut found = Vec::new(alloc);
    let mut rest = text;
    let mut column = 1u32;
    'pieces: while let Some((first, others)) = rest.split_first() {
        if is_blank(*first) {
            rest = others;
            column += 1;
            continue;
        }
        let length = first_token_length(rest);
        let (piece, after) = rest.split_at(length);
        let token = next_token(alloc, found.len(), piece, column)?;
        match found.push(token) {
            Ok(()) => {}
            Err(_) => return Err(OUT_OF_MEMORY_CALC_FAULT),
        }
        rest = after;
        column += length as u32;
    }
    Ok(found)
}

/// A law of the definitions: a text spells exactly one list of at most 1000 tokens.
pub fn text_spells_one_token_list()
    ensures { TextSpellsOneTokenList }
{}
