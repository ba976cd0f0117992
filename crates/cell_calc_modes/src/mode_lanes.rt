//! Finds the most frequent cells of columns with vector instructions, 16 columns at a time. Each argument is compared
//! with all earlier ones.

ghost use Rattle.std.specs.Prelude.{◌≡◌, ◌≤◌, ◌<◌, ◌+◌, ◌==◌, ℕ, length, slice_index_or, All, OnOk, nat_lt, if◌then◌else◌};
ghost use Rattle.cell_calc_language.specs.CellOperators.{most_frequent, non_null_cells, occurrences};
ghost use Rattle.cell_calc_modes.specs.ColumnCells.{at, RowHoldsCellAtEachColumn, AreRowsOfWidth, argument_cells_at_column};
ghost use Rattle.cell_calc_modes.specs.parts.ModeLanes.{cell_denoted_by_key, number_in_lane, cells_of_vectors_in_lane};

use cell_core::cell::Cell;
use cell_core::memory::Memory;
use std::alloc::Global;
use std::simd::prelude::*;

/// Number of columns processed at a time.
pub(crate) const BLOCK_COLUMNS: usize = 16;

// A category is stored as its sum with this number.
const CATEGORY_KEY_OFFSET: i64 = 2147483648;

// Returns the number that stands for a cell.
#[inline(always)]
fn key_of_cell(cell: Cell) -> u32
    ensures { cell_denoted_by_key result ≡ cell }
{
    match cell.get() {
        Some(category) => (category as i64 + CATEGORY_KEY_OFFSET) as u32,
        None => 0,
    }
}

// Returns the cell that a number stands for.
#[inline(always)]
fn cell_of_key(key: u32) -> Cell
    ensures { result ≡ cell_denoted_by_key key }
{
    match Cell::value((key as i64 - CATEGORY_KEY_OFFSET) as i32) {
        Some(cell) => cell,
        None => Cell::null(),
    }
}

// Returns the numbers that stand for the cells of a row, starting at column `c`.
#[inline(always)]
fn keys_of_row_at_column(cells: &[Cell], c: usize) -> u32x16
    requires { c + 16 ≤ length cells.now }
    ensures long { length result ≡ 16 }
    ensures each { (k : ℕ) → k < 16 → cell_denoted_by_key (number_in_lane k result)
        ≡ at cells.now (c + k) }
{
    let mut keys = [0; BLOCK_COLUMNS];
    for k in 0..BLOCK_COLUMNS {
        keys[k] = key_of_cell(cells[c + k]);
    }
    u32x16::from_array(keys)
}

// Writes the cells that numbers stand for to a row, starting at column `c`.
#[inline(always)]
fn write_cells_of_keys(keys: u32x16, row: &mut [Cell], c: usize)
    requires { c + 16 ≤ length row.old }
    ensures before { (k : ℕ) → k < c → at row.new k ≡ at row.old k }
    ensures each { (k : ℕ) → k < 16 → at row.new (c + k)
        ≡ cell_denoted_by_key (number_in_lane k keys) }
{
    let keys = keys.to_array();
    for k in 0..BLOCK_COLUMNS {
        row[c + k] = cell_of_key(keys[k]);
    }
}

#[inline(always)]
fn vector_at(vectors: &[u32x16], i: usize) -> u32x16
    requires { i < length vectors.now }
    ensures { result ≡ slice_index_or vectors.now i result }
{
    vectors[i]
}

// Increments the count in each lane in which two numbers are equal.
#[inline(always)]
fn increment_count_in_equal_lanes(count: u32x16, key: u32x16, other: u32x16) -> u32x16
    requires { (k : ℕ) → k < 16 → number_in_lane k count + 1 < 4294967296 }
    ensures long { length result ≡ 16 }
    ensures each { (k : ℕ) → k < 16
        → number_in_lane k result ≡ number_in_lane k count +
        (if number_in_lane k key == number_in_lane k other then 1 else 0) }
{
    count
        + key
            .simd_eq(other)
            .select(u32x16::splat(1), u32x16::splat(0))
}

// Counts the occurrences of each lane's cell up to and including the cell itself; the count of null is 0.
#[inline(always)]
fn occurrences(before: &[u32x16], key: u32x16) -> u32x16
    requires { length before.now < 65536 }
    ensures long { length result ≡ 16 }
    ensures each { (k : ℕ) → k < 16 → number_in_lane k result ≡ (if number_in_lane k key == 0 then 0
        else occurrences (cell_denoted_by_key (number_in_lane k key))
        (cells_of_vectors_in_lane k before.now) + 1) }
{
    let mut count = u32x16::splat(1);
    for i in 0..before.len() {
        count = increment_count_in_equal_lanes(count, key, vector_at(before, i));
    }
    key.simd_eq(u32x16::splat(0))
        .select(u32x16::splat(0), count)
}

// Selects, in each lane, the number that occurs more often, or the smaller one if both occur equally often.
#[inline(always)]
fn more_frequent_key_in_each_lane(best: u32x16, most: u32x16, key: u32x16, count: u32x16) -> u32x16
    ensures long { length result ≡ 16 }
    ensures each { (k : ℕ) → k < 16 → number_in_lane k result
        ≡ (if nat_lt (number_in_lane k most) (number_in_lane k count) then number_in_lane k key
        else (if number_in_lane k count == number_in_lane k most
        then (if nat_lt (number_in_lane k key)
        (number_in_lane k best) then number_in_lane k key else number_in_lane k best)
        else number_in_lane k best)) }
{
    let smaller = key.simd_lt(best).select(key, best);
    let tied = count.simd_eq(most).select(smaller, best);
    most.simd_lt(count).select(key, tied)
}

// Returns the larger count in each lane.
#[inline(always)]
fn larger_count_in_each_lane(most: u32x16, count: u32x16) -> u32x16
    ensures long { length result ≡ 16 }
    ensures each { (k : ℕ) → k < 16 → number_in_lane k result
        ≡ (if nat_lt (number_in_lane k most) (number_in_lane k count) then number_in_lane k
        count else number_in_lane k most) }
{
    most.simd_lt(count).select(count, most)
}

// Returns the most frequent category in each lane.
fn most_frequent(keys: &[u32x16]) -> u32x16
    requires { length keys.now < 65536 }
    ensures { (k : ℕ) → k < 16
        → cell_denoted_by_key (number_in_lane k result)
        ≡ most_frequent (non_null_cells (cells_of_vectors_in_lane k keys.now)) }
{
    let mut best = u32x16::splat(0);
    let mut most = u32x16::splat(0);
    for i in 0..keys.len() {
        let key = vector_at(keys, i);
        let count = occurrences(&keys[..i], key);
        best = more_frequent_key_in_each_lane(best, most, key, count);
        most = larger_count_in_each_lane(most, count);
    }
    best
}

// Reads the numbers of a block of columns from rows.
fn gather_keys_of_column_block(arguments: &[Vec<Cell>], c: usize, keys: &mut [u32x16])
    requires columns { All (λ row. c + 16 ≤ length row.items) arguments.now }
    requires room { length keys.old ≡ length arguments.now }
    ensures { (k : ℕ) → k < 16 → cells_of_vectors_in_lane k keys.new
        ≡ argument_cells_at_column (c + k) arguments.now }
{
    for i in 0..arguments.len() {
        keys[i] = keys_of_row_at_column(arguments[i].as_slice(), c);
    }
}

/// Writes the most frequent category of each column. The rows must have at least one block of columns. The last block
/// may overlap the one before it.
pub(crate) fn write_modes_ignoring_null(
    alloc: Global,
    arguments: &[Vec<Cell>],
    row: &mut [Cell],
) -> Result<(), Memory>
    requires width { AreRowsOfWidth (length row.old) arguments.now }
    requires block { 16 ≤ length row.old }
    requires few { length arguments.now < 65536 }
    ensures { OnOk result (RowHoldsCellAtEachColumn row.old row.new
        (λ c. most_frequent (non_null_cells (argument_cells_at_column c arguments.now)))) }
{
    let mut spare = Vec::from_elem(alloc, u32x16::splat(0), arguments.len())?;
    let keys = spare.as_mut_slice();
    let last = row.len() - BLOCK_COLUMNS;
    let mut done = 0;
    'blocks: while done < row.len() {
        let c = done.min(last);
        gather_keys_of_column_block(arguments, c, keys);
        write_cells_of_keys(most_frequent(keys), row, c);
        done = c + BLOCK_COLUMNS;
    }
    Ok(())
}
