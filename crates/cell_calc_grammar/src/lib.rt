//! Defines the expressions of r.mapcalc over integers: their tokens, their grammar and their steps
//! (GRASS manual: r.mapcalc). Limits and the columns of errors are our own choice (profile).
//!
//! - `token`, `tokens`: at most 1000 tokens, each with its column
//! - `operator`, `function`: operators and functions, and how many arguments a function accepts
//! - `calc_fault`: `CalcFault`, a `CalcKind` and its column in bytes, from 1
//! - `step`, `map_name`: the steps of an expression in postfix order. Only crates that build,
//!   evaluate or plan expressions may use them
//! - `law`: a list of tokens stands for at most one expression
//!
//! specs/Grammar.antt defines expressions, and specs/TokensRead.antt how they are read with one token of look-ahead.
#![tactic(auto)]

pub mod calc_fault;
pub mod function;
pub mod law;
pub mod map_name;
pub mod operator;
pub mod step;
pub mod token;
pub mod tokens;
