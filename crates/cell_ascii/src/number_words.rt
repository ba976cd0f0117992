//! Reads words of digits, each after one blank, two at a time with vector instructions.

ghost use Rattle.std.specs.Prelude.{true, ◌≡◌, ◌<◌, ◌≤◌, length, take, drop, pos, Some};
ghost use Rattle.cell_ascii_meaning.specs.GridTokens.{line_feed_count};
ghost use Rattle.cell_ascii_meaning.specs.Header.{GridHeaderContents};
ghost use Rattle.cell_ascii.specs.TableWords.{BytesHoldNextCellsAndLineFeeds};
ghost use Rattle.cell_ascii_reading.specs.InRange.{DigitWordsDenoteTheirNumber};

use crate::word_table::{blank_bits_of_block, without_lowest_set_bit};
use cell_ascii_lanes::number_lanes::{are_numbers_up_to_seven_digits, values_of_two_words};
use cell_ascii_lanes::word_lanes::digit_mask;
use cell_core::cell::Cell;
use std::simd::prelude::*;

// Returns the cell for a number with at most eight digits.
#[inline(always)]
fn cell_of_short_number(number: u64) -> Cell
    requires { number < 100000000 }
    ensures { result ≡ Some (pos number) }
{
    match Cell::value(number as i32) {
        Some(cell) => cell,
        None => Cell::null(),
    }
}

// Reads an even number of words that end among the first 64 buffered bytes, if every word has one to seven digits and
// follows a single blank. Returns the number of words and the index at which the last one ends.
#[inline(always)]
pub(crate) fn read_numbers_of_block(buffered: &[u8], row: &mut [Cell]) -> (usize, usize)
    requires buffered { 80 ≤ length buffered.now }
    ensures cells { (h : GridHeaderContents) → DigitWordsDenoteTheirNumber h
        → BytesHoldNextCellsAndLineFeeds h buffered.now
        (take result.0 row.new) result.0 result.1 (line_feed_count (take result.1 buffered.now)) }
    ensures count { result.0 ≤ length row.old }
    ensures within { result.1 < 64 }
    ensures rest { drop result.0 row.new ≡ drop result.0 row.old }
{
    let blanks = blank_bits_of_block(buffered);
    if !are_numbers_up_to_seven_digits(blanks, digit_mask(u8x64::from_slice(buffered))) {
        return (0, 0);
    }
    let mut ends = without_lowest_set_bit(blanks);
    let mut last = 0;
    let mut i = 0;
    'pairs: while row.len() - i >= 2 && ends != 0 {
        let first = ends.trailing_zeros() as usize;
        let others = without_lowest_set_bit(ends);
        if others == 0 {
            return (i, last);
        }
        let second = others.trailing_zeros() as usize;
        let values = values_of_two_words(
            &buffered[last + 1..],
            first - last - 1,
            &buffered[first + 1..],
            second - first - 1,
        );
        row[i] = cell_of_short_number(values.0);
        row[i + 1] = cell_of_short_number(values.1);
        i += 2;
        last = second;
        ends = without_lowest_set_bit(others);
    }
    (i, last)
}
