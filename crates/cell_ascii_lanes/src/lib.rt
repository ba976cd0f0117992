//! Reads the words of a text in vector lanes.
//!
//! - `digit_words`: computes the value of a word of digits with three multiplications
//! - `null_lanes`: finds null words among numbers of at most three digits
//! - `run_lanes`: compares bytes, to find runs of words
//! - `word_lanes`: finds stars and numbers of at most three digits, computes their values, and packs
//!   the lanes that bits select
//! - `number_lanes`: computes the values of words of digits, two at a time
//! - `pace`: chooses which of these ways, or which other, reads the next cells
#![tactic(auto)]

pub mod digit_words;
pub mod null_lanes;
pub mod number_lanes;
pub mod pace;
pub mod run_lanes;
pub mod word_lanes;
