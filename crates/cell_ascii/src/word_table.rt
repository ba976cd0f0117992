//! Remembers the cells of words, so that a repeated word is looked up by its bytes and not read again. If most words
//! are new, numbers are converted digit by digit.

ghost use Rattle.std.specs.Prelude.{ℕ, List, ◌++◌, replicate, true, false, ◌≡◌, ◌+◌, ◌-◌, ◌*◌, ◌%◌, ◌^◌, ◌<◌, ◌≤◌, length, take, drop, Some, Ok, IfOk, IfSome};
ghost use Rattle.std.specs.List.{All, list_all};
ghost use Rattle.std.specs.Int.RustNames.{count_ones, bit_and};
ghost use Rattle.std.specs.Simd.Lanes.{mask_l, number_l};
ghost use Rattle.cell_ascii_meaning.specs.GridTokens.{line_feed_count};
ghost use Rattle.cell_ascii_meaning.specs.CellTexts.{cell_of_word};
ghost use Rattle.cell_ascii_meaning.specs.EdgeNumbers.{value_if_digits, is_digit, value_of_digits, whole_number_of_text};
ghost use Rattle.cell_ascii.specs.TableWords.{BytesHoldNextCellsAndLineFeeds, WordEntryIsFreeOrHoldsCell, IsWordCellPutInRow, blanks, feeds, top_bytes_of_number, AreNextCellsReadIntoRow};
ghost use Rattle.cell_ascii.specs.parts.WordPlaces.{CanPutWordCellInRow};
ghost use Rattle.cell_ascii_reading.specs.InRange.{DigitWordsDenoteTheirNumber};
ghost use Rattle.cell_ascii.specs.parts.BlankRuns.{ByteIsBlankAndBitsMarkBlanks, AreIndexAndBitsAfterBlanks};

use crate::number_words::read_numbers_of_block;
use crate::short_cells::negated_value;
use cell_ascii_lanes::digit_words::{value_of, word_key};
use cell_ascii_lanes::word_lanes::space_mask;
use cell_ascii_reading::header::Header;
use cell_core::cell::Cell;
use cell_core::memory::Memory;
use std::alloc::Global;
use std::marker::Model;
use std::simd::prelude::*;

// Number of words that are kept, in 64 KiB per open reader.
const WORD_TABLE_ENTRIES: usize = 4096;

// A word's index in the table consists of this many top bits of its 64-bit hash.
const WORD_TABLE_PLACE_BITS: u32 = 12;

// Maximum length of a kept word.
const MOST_BYTES_OF_WORD_IN_TABLE: usize = 8;

// Minimum number of buffered bytes: a block of 64, and 16 more so that a vector can be loaded at its last byte.
const LEAST_BUFFERED_BYTES_FOR_BLOCK: usize = 80;

// After this many consecutive blocks that are not all numbers, each call tries only one block as numbers, until one
// succeeds.
const MOST_FAILED_NUMBER_BLOCK_TRIES: usize = 8;

// A word's bytes and the cell that it denotes. An entry of size 0 is free.
#[derive(Clone, Copy)]
struct WordTableEntry {
    key: u64,
    size: u32,
    cell: Cell,
}

// Marks the blanks and line feeds among the first 64 bytes. The lowest bit is the first byte.
#[inline(always)]
pub(crate) fn blank_bits_of_block(buffered: &[u8]) -> u64
    requires { 64 ≤ length buffered.now }
    ensures { result ≡ mask_l (blanks buffered.now) }
{
    space_mask(u8x64::from_slice(buffered))
}

// Marks the line feeds among the first 64 bytes.
#[inline(always)]
fn line_feed_bits_of_block(buffered: &[u8]) -> u64
    requires { 64 ≤ length buffered.now }
    ensures { result ≡ mask_l (feeds buffered.now) }
{
    u8x64::from_slice(buffered)
        .simd_eq(u8x64::splat(b'\n'))
        .to_bitmask()
}

// Adds the line feeds among the first `n` bytes to a number of lines.
#[inline(always)]
pub(crate) fn line_count_after_first_bytes(lines: u64, buffered: &[u8], n: usize) -> u64
    requires room { lines + 64 < 2 ^ 64 }
    requires buffered { 64 ≤ length buffered.now }
    requires within { n < 64 }
    ensures { result ≡ lines + line_feed_count (take n buffered.now) }
{
    let feeds = line_feed_bits_of_block(buffered);
    // Most blocks contain no line feed.
    if feeds == 0 {
        return lines;
    }
    lines + (feeds & ((1 << n) - 1)).count_ones() as u64
}

// Clears the lowest set bit.
#[inline(always)]
pub(crate) fn without_lowest_set_bit(bits: u64) -> u64
    requires { 0 < bits }
    ensures { result ≡ bit_and bits (bits - 1) }
{
    bits & (bits - 1)
}

// Returns the index after the run of blanks at `at`, and the bits of the blanks after that index.
//
// Computing bits for both ends of each word was faster for right-aligned columns, but slower for single blanks.
#[inline(always)]
fn index_and_bits_after_blanks(ends: u64, at: usize) -> (usize, u64)
    requires { at < 64 }
    ensures { (bytes : List ℕ) → ByteIsBlankAndBitsMarkBlanks bytes ends at
        → AreIndexAndBitsAfterBlanks bytes at result }
{
    // The addition carries through the bits of the run and sets the bit after it.
    let carried = ends.wrapping_add(1 << at);
    (carried.trailing_zeros() as usize, ends & carried)
}

// Returns a key that contains the bytes of a word.
#[inline(always)]
fn kept_key(bytes: &[u8], size: usize) -> u64
    requires some { 0 < size }
    requires few { size ≤ 8 }
    requires buffered { 8 ≤ length bytes.now }
    ensures { top_bytes_of_number result size ≡ take size bytes.now }
{
    word_key(bytes, size)
}

// Returns the table index of a word.
#[inline(always)]
fn place_of_word_in_table(key: u64) -> usize
    ensures { result < 4096 }
{
    (key.wrapping_mul(0x9E37_79B9_7F4A_7C15) >> (64 - WORD_TABLE_PLACE_BITS)) as usize
}

// Returns the number that a word of one to nine digits denotes, with an optional minus sign.
#[inline(always)]
fn number_denoted_by_word(bytes: &[u8], size: usize) -> Option<i64>
    requires some { 0 < size }
    requires buffered { 10 ≤ length bytes.now }
    ensures { IfSome result (λ number. whole_number_of_text (take size bytes.now) ≡ Some number) }
{
    if bytes[0] == b'-' {
        return Some(negated_value(value_of(&bytes[1..], size - 1)?));
    }
    Some(value_of(bytes, size)? as i64)
}

// Returns the cell of a number with one to nine digits and an optional minus sign.
#[inline(always)]
fn cell_of_number_word(bytes: &[u8], size: usize, header: &Header) -> Option<Cell>
    requires some { 0 < size }
    requires within { size ≤ length bytes.now }
    requires buffered { 10 ≤ length bytes.now }
    ensures { IfSome result (λ v. cell_of_word header.now (take size bytes.now) ≡ Ok v) }
{
    let number = number_denoted_by_word(bytes, size)?;
    header.cell_of_number(&bytes[..size], number).ok()
}

// Returns the cell of a word that is not in the table.
#[inline(always)]
fn cell_of_word_outside_table(bytes: &[u8], size: usize, header: &Header) -> Option<Cell>
    requires some { 0 < size }
    requires within { size ≤ length bytes.now }
    requires buffered { 10 ≤ length bytes.now }
    ensures { IfSome result (λ v. cell_of_word header.now (take size bytes.now) ≡ Ok v) }
{
    match cell_of_number_word(bytes, size, header) {
        Some(cell) => Some(cell),
        None => header.cell_of_word(&bytes[..size]).ok(),
    }
}

// Stores the cell of a short word in the table, where it may replace another word's cell.
fn store_word_cell_in_table(
    bytes: &[u8],
    size: usize,
    cell: Cell,
    header: &Header,
    entries: &mut [WordTableEntry],
)
    requires some { 0 < size }
    requires buffered { 8 ≤ length bytes.now }
    requires cell { cell_of_word header.now (take size bytes.now) ≡ Ok cell }
    requires room { length entries.old ≡ 4096 }
    requires known { All (WordEntryIsFreeOrHoldsCell header.now) entries.old }
    ensures { All (WordEntryIsFreeOrHoldsCell header.now) entries.new }
{
    if size > MOST_BYTES_OF_WORD_IN_TABLE {
        return;
    }
    let key = kept_key(bytes, size);
    entries[place_of_word_in_table(key)] = WordTableEntry {
        key,
        size: size as u32,
        cell,
    };
}

// Reads the cell of the first word into a row and stores it in the table. Returns whether the word is a cell, and
// counts the word as missed.
#[inline(never)]
fn read_missed_word_cell_into_row(
    bytes: &[u8],
    size: usize,
    header: &Header,
    entries: &mut [WordTableEntry],
    row: &mut [Cell],
    i: usize,
    missed: &mut usize,
) -> bool
    requires { CanPutWordCellInRow header.now bytes.now size entries.old i row.old }
    ensures cell { result ≡ true → IsWordCellPutInRow header.now
        (take size bytes.now) i row.old row.new }
    ensures none { result ≡ false → row.new ≡ row.old }
    ensures known { All (WordEntryIsFreeOrHoldsCell header.now) entries.new }
{
    *missed = missed.saturating_add(1);
    let Some(cell) = cell_of_word_outside_table(bytes, size, header) else {
        return false;
    };
    store_word_cell_in_table(bytes, size, cell, header, entries);
    row[i] = cell;
    true
}

// Writes the cell of the first word to a row. Returns whether the word is a cell. With SOUGHT, numbers are looked up in
// the table; without it, they are converted digit by digit.
#[inline(always)]
fn write_word_cell_to_row<const SOUGHT: bool>(
    bytes: &[u8],
    size: usize,
    header: &Header,
    entries: &mut [WordTableEntry],
    row: &mut [Cell],
    i: usize,
    missed: &mut usize,
) -> bool
    requires { CanPutWordCellInRow header.now bytes.now size entries.old i row.old }
    ensures cell { result ≡ true → IsWordCellPutInRow header.now
        (take size bytes.now) i row.old row.new }
    ensures none { result ≡ false → row.new ≡ row.old }
    ensures known { All (WordEntryIsFreeOrHoldsCell header.now) entries.new }
{
    if !SOUGHT && let Some(cell) = cell_of_number_word(bytes, size, header) {
        row[i] = cell;
        return true;
    }
    if size <= MOST_BYTES_OF_WORD_IN_TABLE {
        let key = kept_key(bytes, size);
        let entry = entries[place_of_word_in_table(key)];
        if entry.key == key && entry.size as usize == size {
            row[i] = entry.cell;
            return true;
        }
    }
    read_missed_word_cell_into_row(bytes, size, header, entries, row, i, missed)
}

// Reads the words that end among the first 64 buffered bytes, until the row is full or a word is not a cell. Returns
// the number of cells and where the last word ends.
#[inline(always)]
fn read_block_words_as_cells<const SOUGHT: bool>(
    buffered: &[u8],
    header: &Header,
    entries: &mut [WordTableEntry],
    row: &mut [Cell],
    missed: &mut usize,
) -> (usize, usize)
    requires buffered { 72 ≤ length buffered.now }
    requires room { length entries.old ≡ 4096 }
    requires known { All (WordEntryIsFreeOrHoldsCell header.now) entries.old }
    ensures cells { BytesHoldNextCellsAndLineFeeds header.now buffered.now
        (take result.0 row.new) result.0 result.1
        (line_feed_count (take result.1 buffered.now)) }
    ensures count { result.0 ≤ length row.old }
    ensures within { result.1 < 64 }
    ensures rest { drop result.0 row.new ≡ drop result.0 row.old }
    ensures known { All (WordEntryIsFreeOrHoldsCell header.now) entries.new }
{
    let mut ends = blank_bits_of_block(buffered);
    let mut at = 0;
    let mut last = 0;
    let mut i = 0;
    'words: while ends != 0 && i < row.len() {
        let end = ends.trailing_zeros() as usize;
        let size = end - at;
        if size > 0 {
            if !write_word_cell_to_row::<SOUGHT>(
                &buffered[at..],
                size,
                header,
                entries,
                row,
                i,
                missed,
            ) {
                return (i, last);
            }
            i += 1;
            last = end;
            at = end + 1;
            ends = without_lowest_set_bit(ends);
        } else {
            let passed = index_and_bits_after_blanks(ends, at);
            at = passed.0;
            ends = passed.1;
        }
    }
    (i, last)
}

/// Holds a grid's header and the words read under it. Only `new` allocates.
#[derive(Drop)]
pub struct WordTable {
    header: Header,
    entries: Vec<WordTableEntry>,
    // Number of blocks that may still be tried as numbers.
    tries: usize,
}

impl Model for WordTable {
    ghost use Rattle.std.specs.Prelude.{◌≡◌, length, true};
    ghost use Rattle.cell_ascii_reading.specs.InRange.{DigitWordsDenoteTheirNumber};
    ghost use Rattle.std.specs.List.{All, list_all};
    ghost use Rattle.cell_ascii_meaning.specs.Header.{GridHeaderContents};
    ghost use Rattle.cell_ascii.specs.TableWords.{WordEntryIsFreeOrHoldsCell};

    ghost Value = { GridHeaderContents };

    ghost view = { λ t. t.header };

    ghost invariant = { λ t. (length t.entries.items ≡ 4096) × All (WordEntryIsFreeOrHoldsCell t.header) t.entries.items };
}

// Like `read_block_words_as_cells`, but first tries to read the block as numbers with vector instructions, if the header allows it
// and a try is left.
#[inline(always)]
fn read_block_as_numbers_or_cells<const SOUGHT: bool>(
    buffered: &[u8],
    header: &Header,
    entries: &mut [WordTableEntry],
    row: &mut [Cell],
    missed: &mut usize,
    tries: &mut usize,
) -> (usize, usize)
    requires buffered { 80 ≤ length buffered.now }
    requires plain { 0 < tries.old → DigitWordsDenoteTheirNumber header.now }
    requires room { length entries.old ≡ 4096 }
    requires known { All (WordEntryIsFreeOrHoldsCell header.now) entries.old }
    ensures cells { BytesHoldNextCellsAndLineFeeds header.now buffered.now
        (take result.0 row.new) result.0 result.1
        (line_feed_count (take result.1 buffered.now)) }
    ensures count { result.0 ≤ length row.old }
    ensures within { result.1 < 64 }
    ensures rest { drop result.0 row.new ≡ drop result.0 row.old }
    ensures known { All (WordEntryIsFreeOrHoldsCell header.now) entries.new }
    ensures plain { 0 < tries.new → DigitWordsDenoteTheirNumber header.now }
{
    if *tries > 0 {
        let found = read_numbers_of_block(buffered, row);
        if found.0 > 0 {
            *tries = MOST_FAILED_NUMBER_BLOCK_TRIES;
            return found;
        }
        *tries -= 1;
    }
    read_block_words_as_cells::<SOUGHT>(buffered, header, entries, row, missed)
}

// Reads buffered words, separated by blanks and line feeds, into the start of a row. Returns the number of cells, the
// bytes read, and the line feeds among them. Stops at a word of 64 bytes or more, at a word that is not a cell, and
// before the last bytes of the buffer. Counts words that are not in the table as missed.
#[inline(never)]
fn read_cells_with_table<const SOUGHT: bool>(
    buffered: &[u8],
    header: &Header,
    entries: &mut [WordTableEntry],
    row: &mut [Cell],
    missed: &mut usize,
    tries: &mut usize,
) -> (usize, usize, u64)
    requires plain { 0 < tries.old → DigitWordsDenoteTheirNumber header.now }
    requires room { length entries.old ≡ 4096 }
    requires known { All (WordEntryIsFreeOrHoldsCell header.now) entries.old }
    ensures cells { AreNextCellsReadIntoRow header.now buffered.now row.old row.new result }
    ensures known { All (WordEntryIsFreeOrHoldsCell header.now) entries.new }
{
    let mut i = 0;
    let mut passed = 0;
    let mut lines = 0;
    'blocks: while i < row.len() && buffered.len() - passed >= LEAST_BUFFERED_BYTES_FOR_BLOCK {
        let block = &buffered[passed..];
        let found = read_block_as_numbers_or_cells::<SOUGHT>(
            block,
            header,
            entries,
            &mut row[i..],
            missed,
            tries,
        );
        if found.0 == 0 {
            return (i, passed, lines);
        }
        lines = line_count_after_first_bytes(lines, block, found.1);
        i += found.0;
        passed += found.1;
    }
    (i, passed, lines)
}

impl WordTable {
    /// Returns an empty table for the words of a grid with this header.
    pub fn new(alloc: Global, header: Header) -> Result<WordTable, Memory>
        ensures { IfOk result (λ t. t ≡ header) }
    {
        let free = WordTableEntry {
            key: 0,
            size: 0,
            cell: Cell::null(),
        };
        let entries = vec![in alloc; free; WORD_TABLE_ENTRIES]?;
        Ok(WordTable {
            header,
            entries,
            tries: MOST_FAILED_NUMBER_BLOCK_TRIES,
        })
    }

    /// Returns the header that determines which cell a word denotes.
    pub fn header(&self) -> &Header
        ensures { result.now ≡ self.now }
    {
        &self.header
    }

    /// Reads buffered words, separated by blanks and line feeds, into the start of a row. Returns the number of cells,
    /// the bytes read, and the line feeds among them. Counts words that are not in the table as missed. With SOUGHT,
    /// numbers are also looked up in the table.
    pub fn cells_in<const SOUGHT: bool>(
        &mut self,
        buffered: &[u8],
        row: &mut [Cell],
        missed: &mut usize,
    ) -> (usize, usize, u64)
        ensures cells { AreNextCellsReadIntoRow self.old buffered.now row.old row.new result }
        ensures same { self.new ≡ self.old }
    {
        let mut tries = if self.header.digit_words_denote_their_number() {
            self.tries.max(1)
        } else {
            0
        };
        let found = read_cells_with_table::<SOUGHT>(
            buffered,
            &self.header,
            self.entries.as_mut_slice(),
            row,
            missed,
            &mut tries,
        );
        self.tries = tries;
        found
    }
}
