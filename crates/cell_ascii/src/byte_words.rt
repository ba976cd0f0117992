//! Reads the numbers 0 to 254 and null words into bytes: 64 bytes of text at a time, with vector instructions.
//!
//! The null text `*` has a way of its own. Any other null text of at most eight bytes is compared with each word that
//! does not begin with a digit.

ghost use Rattle.std.specs.Prelude.{◌≡◌, ◌+◌, ◌*◌, ◌<◌, ◌≤◌, length, take};
ghost use Rattle.cell_core_values.specs.SmallCells.{cells_of_bytes};
ghost use Rattle.cell_ascii_meaning.specs.GridTokens.{line_feed_count};
ghost use Rattle.cell_ascii_meaning.specs.Header.{GridHeaderContents, usual_null_text};
ghost use Rattle.cell_ascii.specs.TableWords.{BytesHoldNextCellsAndLineFeeds};
ghost use Rattle.cell_ascii_reading.specs.InRange.{DigitWordsDenoteTheirNumber};
ghost use Rattle.cell_ascii_lanes.specs.NullLanes.{IsNullKey};

use crate::word_table::{blank_bits_of_block, line_count_after_first_bytes};
use cell_ascii_lanes::null_lanes::{
    are_short_numbers, moved_on, null_key, number_values, other_starts, put_nulls, put_values,
};
use cell_ascii_lanes::word_lanes::{
    are_stars_or_short_numbers, digit_mask, lowest_bits_up_to_set_bit_count,
    put_cell_bytes_in_lanes, put_selected_lanes_in_row, star_mask, word_values_and_if_below_255,
};
use cell_ascii_reading::header::Header;
use std::simd::prelude::*;

// Number of bytes read at once.
const WORD_BLOCK_BYTES: usize = 64;

// Minimum number of buffered bytes from which every short word can be read: a block, and the eight bytes of a null text
// at its last byte.
pub(crate) const LEAST_BUFFERED_BYTES_FOR_BLOCK: usize = 72;

// Spare bytes at the end of a row, so that a full vector can be stored after its last cell.
pub(crate) const SPARE_ROW_BYTES: usize = 72;

// Reads at most `most` words that end among the first 64 buffered bytes into the start of `row`, one byte per cell.
// Returns the number of cells and the index at which the last word ends. Returns 0 if any word is neither a number
// below 255 of at most three digits nor a null star.
#[inline(always)]
fn read_block_as_byte_cells(buffered: &[u8], row: &mut [u8], most: usize) -> (usize, usize)
    requires buffered { 64 ≤ length buffered.now }
    requires room { 72 ≤ length row.old }
    ensures cells { (h : GridHeaderContents) → DigitWordsDenoteTheirNumber h
        → h.null_text ≡ usual_null_text
        → BytesHoldNextCellsAndLineFeeds h buffered.now (cells_of_bytes
        (take result.0 row.new)) result.0 result.1
        (line_feed_count (take result.1 buffered.now)) }
    ensures count { result.0 ≤ most }
    ensures within { result.1 < 64 }
{
    let bytes = u8x64::from_slice(buffered);
    let blanks = blank_bits_of_block(buffered);
    let words = !blanks;
    let stars = star_mask(bytes);
    if !are_stars_or_short_numbers(words, digit_mask(bytes), stars) {
        return (0, 0);
    }
    let (values, are_small) = word_values_and_if_below_255(bytes, words);
    if !are_small {
        return (0, 0);
    }
    let ends = lowest_bits_up_to_set_bit_count(words & (blanks >> 1), most);
    let mut lanes = [0u8; 72];
    put_cell_bytes_in_lanes(bytes, values, &mut lanes);
    let count = put_selected_lanes_in_row(&lanes, ends, row);
    (count, 64 - ends.leading_zeros() as usize)
}

// Reads at most `most` buffered words into the start of `row`, one byte per cell, as long as each is a number below 255
// of at most three digits or a null star. Returns the number of cells, the number of text bytes read, and the line feeds
// among these bytes.
#[inline(never)]
fn read_buffered_byte_cells(buffered: &[u8], row: &mut [u8], most: usize) -> (usize, usize, u64)
    requires room { most + 72 ≤ length row.old }
    ensures cells { (h : GridHeaderContents) → DigitWordsDenoteTheirNumber h
        → h.null_text ≡ usual_null_text
        → BytesHoldNextCellsAndLineFeeds h buffered.now (cells_of_bytes
        (take result.0 row.new)) result.0 result.1
        result.2 }
    ensures count { result.0 ≤ most }
    ensures within { result.1 ≤ length buffered.now }
    ensures among { result.2 ≤ result.1 }
    ensures lines { result.2 ≤ result.0 * 64 }
{
    let mut i = 0;
    let mut passed = 0;
    let mut lines = 0;
    'blocks: while i < most && buffered.len() - passed >= WORD_BLOCK_BYTES {
        let block = &buffered[passed..];
        let found = read_block_as_byte_cells(block, &mut row[i..], most - i);
        if found.0 == 0 {
            return (i, passed, lines);
        }
        lines = line_count_after_first_bytes(lines, block, found.1);
        i += found.0;
        passed += found.1;
    }
    (i, passed, lines)
}

// Like `read_block_as_byte_cells`, for a null text with a key.
#[inline(always)]
fn block_words_in(
    buffered: &[u8],
    row: &mut [u8],
    most: usize,
    key: u64,
    size: usize,
) -> (usize, usize)
    requires few { size ≤ 8 }
    requires buffered { 72 ≤ length buffered.now }
    requires room { 72 ≤ length row.old }
    ensures cells { (h : GridHeaderContents) → DigitWordsDenoteTheirNumber h
        → IsNullKey h.null_text key size
        → BytesHoldNextCellsAndLineFeeds h buffered.now (cells_of_bytes
        (take result.0 row.new)) result.0 result.1
        (line_feed_count (take result.1 buffered.now)) }
    ensures count { result.0 ≤ most }
    ensures within { result.1 < 64 }
{
    let bytes = u8x64::from_slice(buffered);
    let blanks = blank_bits_of_block(buffered);
    let digits = digit_mask(bytes);
    let starts = other_starts(blanks, digits);
    let marked = moved_on(starts, size);
    let (are_stars_or_short_numbers, has_three) = are_short_numbers(blanks, digits, marked);
    if !are_stars_or_short_numbers {
        return (0, 0);
    }
    let (values, are_small) = number_values(bytes, blanks, marked, has_three);
    if !are_small {
        return (0, 0);
    }
    let mut lanes = [0u8; 72];
    put_values(values, &mut lanes);
    if !put_nulls(buffered, starts, key, size, &mut lanes) {
        return (0, 0);
    }
    let ends = lowest_bits_up_to_set_bit_count(!blanks & (blanks >> 1), most);
    let count = put_selected_lanes_in_row(&lanes, ends, row);
    (count, 64 - ends.leading_zeros() as usize)
}

// Like `read_buffered_byte_cells`, for a null text with a key.
#[inline(never)]
fn words_in(
    buffered: &[u8],
    row: &mut [u8],
    most: usize,
    key: u64,
    size: usize,
) -> (usize, usize, u64)
    requires few { size ≤ 8 }
    requires room { most + 72 ≤ length row.old }
    ensures cells { (h : GridHeaderContents) → DigitWordsDenoteTheirNumber h
        → IsNullKey h.null_text key size
        → BytesHoldNextCellsAndLineFeeds h buffered.now (cells_of_bytes
        (take result.0 row.new)) result.0 result.1
        result.2 }
    ensures count { result.0 ≤ most }
    ensures within { result.1 ≤ length buffered.now }
    ensures among { result.2 ≤ result.1 }
    ensures lines { result.2 ≤ result.0 * 64 }
{
    let mut i = 0;
    let mut passed = 0;
    let mut lines = 0;
    'blocks: while i < most && buffered.len() - passed >= LEAST_BUFFERED_BYTES_FOR_BLOCK {
        let block = &buffered[passed..];
        let next = block_words_in(block, &mut row[i..], most - i, key, size);
        if next.0 == 0 {
            return (i, passed, lines);
        }
        lines = line_count_after_first_bytes(lines, block, next.1);
        i += next.0;
        passed += next.1;
    }
    (i, passed, lines)
}

/// Reads at most `most` buffered words into the start of `row`, one byte per cell, as long as each is null or a number
/// below 255 of at most three digits. Returns the number of cells, the number of text bytes read, and the line feeds
/// among these bytes.
pub(crate) fn short_words_in(
    buffered: &[u8],
    row: &mut [u8],
    most: usize,
    header: &Header,
) -> (usize, usize, u64)
    requires plain { DigitWordsDenoteTheirNumber header.now }
    requires room { most + 72 ≤ length row.old }
    ensures cells { BytesHoldNextCellsAndLineFeeds header.now buffered.now
        (cells_of_bytes (take result.0 row.new))
        result.0 result.1 result.2 }
    ensures count { result.0 ≤ most }
    ensures within { result.1 ≤ length buffered.now }
    ensures among { result.2 ≤ result.1 }
    ensures lines { result.2 ≤ result.0 * 64 }
{
    if header.is_star_null() {
        return read_buffered_byte_cells(buffered, row, most);
    }
    let (key, size) = null_key(header.null_word());
    words_in(buffered, row, most, key, size)
}
