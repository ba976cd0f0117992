//! Reads a word of at most nine digits with three multiplications.

ghost use Rattle.std.specs.Prelude.{ℕ, ◌++◌, replicate, true, ◌≡◌, ◌-◌, ◌<◌, ◌≤◌, length, take, Some, IfSome};
ghost use Rattle.std.specs.List.{list_all};
ghost use Rattle.std.specs.Simd.Lanes.{number_l};
ghost use Rattle.cell_ascii_meaning.specs.EdgeNumbers.{value_if_digits, is_digit, value_of_digits};

use cell_core_values::whole_numbers::is_digit;
use std::simd::prelude::*;

// Maximum number of bytes of a key.
const MOST_AT_ONCE: usize = 8;

// Maximum number of digits for which every number fits in 32 bits.
const MOST_DIGITS: usize = 9;

/// Packs the first bytes of a word into the upper bytes of a number.
#[inline(always)]
pub fn word_key(bytes: &[u8], size: usize) -> u64
    requires some { 0 < size }
    requires few { size ≤ 8 }
    requires buffered { 8 ≤ length bytes.now }
    ensures { result ≡ number_l 256 (replicate (8 - size) 0 ++ take size bytes.now) }
{
    let [all] = u64x1::from_le_bytes(u8x8::from_slice(bytes)).to_array();
    all << (64 - 8 * size)
}

// Counts the digits at the start of the first eight bytes. If all eight are digits, the result may exceed 8.
#[inline(always)]
fn digits_at(bytes: &[u8]) -> usize
    requires { 8 ≤ length bytes.now }
    ensures { (n : ℕ) → n ≤ 8 → n ≤ result → list_all is_digit (take n bytes.now) ≡ true }
{
    let values = u8x8::from_slice(bytes) - u8x8::splat(b'0');
    values
        .simd_ge(u8x8::splat(10))
        .to_bitmask()
        .trailing_zeros() as usize
}

// Returns the value of `size` digits. Three multiplications combine digits into pairs, pairs into groups of four, and
// groups into eight digits.
#[inline(always)]
fn digits_value(bytes: &[u8], size: usize) -> u64
    requires some { 0 < size }
    requires few { size ≤ 8 }
    requires buffered { 8 ≤ length bytes.now }
    requires digits { list_all is_digit (take size bytes.now) ≡ true }
    ensures value { result ≡ value_of_digits (take size bytes.now) }
    ensures small { result < 100000000 }
{
    let word = word_key(bytes, size) & 0x0f0f_0f0f_0f0f_0f0f;
    let pairs = word.wrapping_mul(10).wrapping_add(word >> 8);
    let first = (pairs & 0x0000_00ff_0000_00ff).wrapping_mul(100 + (1_000_000 << 32));
    let second = ((pairs >> 16) & 0x0000_00ff_0000_00ff).wrapping_mul(1 + (10_000 << 32));
    first.wrapping_add(second) >> 32
}

// Returns the value of nine digits.
fn nine_value(bytes: &[u8], size: usize) -> Option<u32>
    requires { 9 ≤ length bytes.now }
    ensures { IfSome result (λ value. value_if_digits (take size bytes.now) ≡ Some value) }
{
    if size != MOST_DIGITS || digits_at(bytes) < MOST_AT_ONCE {
        return None;
    }
    if !is_digit(bytes[MOST_AT_ONCE]) {
        return None;
    }
    Some(digits_value(bytes, MOST_AT_ONCE) as u32 * 10 + (bytes[MOST_AT_ONCE] - b'0') as u32)
}

/// Returns the value of one to nine digits.
#[inline(always)]
pub fn value_of(bytes: &[u8], size: usize) -> Option<u32>
    requires { 9 ≤ length bytes.now }
    ensures { IfSome result (λ value. value_if_digits (take size bytes.now) ≡ Some value) }
{
    if size > MOST_AT_ONCE {
        return nine_value(bytes, size);
    }
    if size == 0 || digits_at(bytes) < size {
        return None;
    }
    Some(digits_value(bytes, size) as u32)
}
