//! Finds null words among numbers of at most three digits.
//!
//! A word that does not begin with a digit has to be the null text. Its bytes are compared with the text's key, a number
//! that contains up to eight bytes.

ghost use Rattle.std.specs.Prelude.{ℕ, true, false, ◌≡◌, ◌+◌, ◌<◌, ◌≤◌, min, length, slice_index_or};
ghost use Rattle.std.specs.Int.{bit_at};
ghost use Rattle.cell_ascii_lanes.specs.NullLanes.{AreOtherStarts, AreShortNumbers, AreTwoDigits, AreNumberValues, IsNullKey, AreNulls, IsOtherLane};

use crate::digit_words::word_key;
use crate::word_lanes::{space_mask, values_of_three_digit_words, values_of_two_digit_words};
use std::simd::prelude::*;

// Maximum length of a null text that has a key.
const MOST_BYTES: usize = 8;

// Keeps the bits whose predecessors are marked.
#[inline(always)]
fn following(bits: u64, marked: u64) -> u64
    ensures first { bit_at result 0 ≡ 0 }
    ensures each { (i : ℕ) → i + 1 < 64
        → bit_at result (i + 1) ≡ min (bit_at bits (i + 1)) (bit_at marked i) }
{
    bits & (marked << 1)
}

/// Marks the first byte of each word that does not begin with a digit.
#[inline(always)]
pub fn other_starts(blanks: u64, digits: u64) -> u64
    ensures { AreOtherStarts blanks digits result }
{
    following(!(blanks | digits), blanks)
}

/// Marks the bytes that are `size` bytes after a marked byte.
#[inline(always)]
pub fn moved_on(bits: u64, size: usize) -> u64
    requires { size ≤ 8 }
    ensures low { (i : ℕ) → i < size → bit_at result i ≡ 0 }
    ensures each { (i : ℕ) → i + size < 64 → bit_at result (i + size) ≡ bit_at bits i }
{
    bits << size
}

/// Returns whether a blank comes first and at each marked byte, and each word that begins with a digit is a number of at
/// most three digits. Also returns whether a number has three digits.
#[inline(always)]
pub fn are_short_numbers(blanks: u64, digits: u64, marked: u64) -> (bool, bool)
    ensures short { result.0 ≡ true → AreShortNumbers blanks digits marked }
    ensures two { result.1 ≡ false → AreTwoDigits blanks digits }
{
    let words = !blanks;
    let second = following(words, following(digits, blanks));
    let third = following(words, second);
    let fourth = following(words, third);
    let odd = (second | third) & !digits;
    let is_short = (odd | fourth | (words & (marked | 1))) == 0;
    (is_short, third != 0)
}

// Returns a mask of the lanes that are 255.
#[inline(always)]
fn largest_mask(values: u8x64) -> u64
    ensures { (p : ℕ) → p < 64 → bit_at result p ≡ 0 → slice_index_or values p 0 < 255 }
{
    values.simd_eq(u8x64::splat(255)).to_bitmask()
}

/// Returns the values of numbers of at most three digits, at their last digits. Also returns whether all of them are
/// below 255, except before marked bytes.
#[inline(always)]
pub fn number_values(bytes: u8x64, blanks: u64, marked: u64, has_three: bool) -> (u8x64, bool)
    ensures { result.1 ≡ true → AreNumberValues bytes blanks marked has_three result.0 }
{
    if !has_three {
        return (values_of_two_digit_words(bytes), true);
    }
    let values = values_of_three_digit_words(bytes);
    let large = largest_mask(values);
    (values, large & !blanks & ((blanks & !marked) >> 1) == 0)
}

/// Returns the key and the size of a null text. The size is 0 if the text has a blank or more than eight bytes.
pub fn null_key(text: &[u8]) -> (u64, usize)
    ensures { IsNullKey text.now result.0 result.1 }
{
    let size = text.len();
    if size == 0 || size > MOST_BYTES {
        return (0, 0);
    }
    let mut bytes = [0; 64];
    bytes[..size].copy_from_slice(text);
    if space_mask(u8x64::from_slice(&bytes)) != 0 {
        return (0, 0);
    }
    (word_key(&bytes, size), size)
}

/// Writes the values of words.
#[inline(always)]
pub fn put_values(values: u8x64, lanes: &mut [u8])
    requires { 64 ≤ length lanes.old }
    ensures { (p : ℕ) → p < 64
        → slice_index_or lanes.new p 0 ≡ slice_index_or values p 0 }
{
    values.copy_to_slice(lanes);
}

/// Writes 255 to the lane of the last byte of each null word. Returns whether the text with this key begins at each of
/// the bytes in `starts`.
#[inline(always)]
pub fn put_nulls(buffered: &[u8], starts: u64, key: u64, size: usize, lanes: &mut [u8]) -> bool
    requires some { 0 < starts → 0 < size }
    requires few { size ≤ 8 }
    requires buffered { 72 ≤ length buffered.now }
    requires lanes { 72 ≤ length lanes.old }
    ensures nulls { result ≡ true → AreNulls starts key size buffered.now lanes.new }
    ensures others { (q : ℕ) → IsOtherLane starts size q
        → slice_index_or lanes.new q 0 ≡ slice_index_or lanes.old q 0 }
{
    let mut left = starts;
    'nulls: while left != 0 {
        let at = left.trailing_zeros() as usize;
        if word_key(&buffered[at..], size) != key {
            return false;
        }
        lanes[at + (size - 1)] = 255;
        left &= !(1 << at);
    }
    true
}
