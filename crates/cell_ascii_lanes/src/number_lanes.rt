//! Reads words of digits in vector lanes, two at a time.
//!
//! Each of the two words fills the end of one half of a vector, after zeros. Adjacent lanes are then combined into
//! lanes of twice the width: values of two digits, of four, and of eight.

ghost use Rattle.std.specs.Prelude.{ℕ, true, ◌≡◌, ◌+◌, ◌-◌, ◌*◌, ◌%◌, ◌<◌, ◌≤◌, ◌++◌, length, take, replicate, slice_index_or};
ghost use Rattle.std.specs.List.{list_all};
ghost use Rattle.cell_core_values.specs.Digits.{is_digit, value_of_digits};
ghost use Rattle.cell_ascii_lanes.specs.NumberLanes.{AreNumbersUpToSevenDigits};

use std::simd::prelude::*;

// For each word length, the source index of each byte in a half that ends with the word; 128 stands for a zero.
static SHUFFLE_INDICES_BY_WORD_LENGTH: [u8; 24] = [
    128, 128, 128, 128, 128, 128, 128, 128, 0, 1, 2, 3, 4, 5, 6, 7, 8, 9, 10, 11, 12, 13, 14, 15,
];

/// Returns whether every word has one to seven digits and follows a single blank, given the bits of blanks and of
/// digits.
#[inline(always)]
pub fn are_numbers_up_to_seven_digits(blanks: u64, digits: u64) -> bool
    ensures { result ≡ true → AreNumbersUpToSevenDigits blanks digits }
{
    let words = !blanks;
    let two = words & (words << 1);
    let four = two & (two << 2);
    let eight = four & (four << 4);
    ((words & !digits) | (blanks & (blanks << 1)) | eight | (words & 1)) == 0
}

// Moves a word to the end of the first eight lanes, after zeros.
#[inline(always)]
fn word_moved_to_end_of_lanes(bytes: &[u8], size: usize) -> u8x16
    requires few { size ≤ 8 }
    requires buffered { 16 ≤ length bytes.now }
    ensures word { take 8 result ≡ replicate (8 - size) 0 ++ take size bytes.now }
    ensures long { length result ≡ 16 }
{
    u8x16::from_slice(bytes).swizzle_dyn(u8x16::from_slice(&SHUFFLE_INDICES_BY_WORD_LENGTH[size..]))
}

// Combines digits into the values of pairs.
#[inline(always)]
fn twos(digits: u8x16) -> u16x8
    requires { (k : ℕ) → k < 16 → slice_index_or digits k 0 % 16 < 10 }
    ensures { (j : ℕ) → j < 8 → slice_index_or result j 0
        ≡ 10 * (slice_index_or digits (2 * j) 0 % 16) + slice_index_or digits (2 * j + 1) 0 % 16 }
{
    let lanes = u16x8::from_le_bytes(digits & u8x16::splat(15));
    (lanes * u16x8::splat(10 * 256 + 1)) >> u16x8::splat(8)
}

// Combines pairs into the values of four digits.
#[inline(always)]
fn fours(twos: u16x8) -> u32x4
    requires { (k : ℕ) → k < 8 → slice_index_or twos k 0 < 100 }
    ensures { (j : ℕ) → j < 4 → slice_index_or result j 0
        ≡ 100 * slice_index_or twos (2 * j) 0 + slice_index_or twos (2 * j + 1) 0 }
{
    let lanes = u32x4::from_le_bytes(twos.to_le_bytes());
    (lanes * u32x4::splat(100 * 65536 + 1)) >> u32x4::splat(16)
}

// Combines groups of four digits into the values of eight.
#[inline(always)]
fn values_of_eight_digits(fours: u32x4) -> u64x2
    requires { (k : ℕ) → k < 4 → slice_index_or fours k 0 < 10000 }
    ensures { (j : ℕ) → j < 2 → slice_index_or result j 0
        ≡ 10000 * slice_index_or fours (2 * j) 0 + slice_index_or fours (2 * j + 1) 0 }
{
    let lanes = u64x2::from_le_bytes(fours.to_le_bytes());
    (lanes & u64x2::splat(0xffff_ffff)) * u64x2::splat(10_000) + (lanes >> u64x2::splat(32))
}

/// Returns the values of two words of digits.
#[inline(always)]
pub fn values_of_two_words(
    first: &[u8],
    size: usize,
    second: &[u8],
    size_of_second: usize,
) -> (u64, u64)
    requires few { (size ≤ 8) × (size_of_second ≤ 8) }
    requires buffered { (16 ≤ length first.now) × (16 ≤ length second.now) }
    requires digits { (list_all is_digit (take size first.now) ≡ true)
        × (list_all is_digit (take size_of_second second.now) ≡ true) }
    ensures first { result.0 ≡ value_of_digits (take size first.now) }
    ensures second { result.1 ≡ value_of_digits (take size_of_second second.now) }
    ensures small { (result.0 < 100000000) × (result.1 < 100000000) }
{
    let words = word_moved_to_end_of_lanes(first, size).shuffle(
        word_moved_to_end_of_lanes(second, size_of_second),
        [0, 1, 2, 3, 4, 5, 6, 7, 16, 17, 18, 19, 20, 21, 22, 23],
    );
    let [one, two] = values_of_eight_digits(fours(twos(words))).to_array();
    (one, two)
}
