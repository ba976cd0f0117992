//! Finds the most frequent cells of columns. Few arguments are compared with vector instructions (`mode_lanes`). If
//! there are many, the categories of each column are sorted, and the longest run of equal categories is found.

ghost use Rattle.std.specs.Prelude.{◌≡◌, ◌≤◌, ◌<◌, ◌+◌, List, length, take, All, IsPermutation, IsSorted, OnOk, nat_lt, if◌then◌else◌, false};
ghost use Rattle.cell_core_values.specs.Cell.{compare_cells_null_last, cell_eq};
ghost use Rattle.cell_core.specs.Grid.{CellValue};
ghost use Rattle.cell_calc_language.specs.CellOperators.{most_frequent, mode, non_null_cells, is_null};
ghost use Rattle.cell_calc_modes.specs.ColumnCells.{at, RowHoldsCellAtEachColumn, AreRowsOfWidth, argument_cells_at_column};
ghost use Rattle.cell_calc_modes.specs.parts.Modes.{cell_unless_other_null};

use crate::mode_lanes::{self, BLOCK_COLUMNS};
use cell_calc_language::cell_operators::is_null;
use cell_core::cell::Cell;
use cell_core::memory::Memory;
use std::alloc::Global;

// With more arguments than this, sorting takes fewer steps than comparing each argument with all earlier ones.
const MOST_COMPARED_ARGUMENTS: usize = 128;

fn argument_cell_at_column(cells: &[Cell], c: usize) -> Cell
    requires { c < length cells.now }
    ensures { result ≡ at cells.now c }
{
    cells[c]
}

// Returns 1 for a category and 0 for null.
fn one_if_category_else_zero(cell: Cell) -> usize
    ensures { result ≡ (if is_null cell then 0 else 1) }
{
    if is_null(cell) { 0 } else { 1 }
}

// Moves the categories of a column to the start of `cells` and returns their number.
fn gather_categories_of_column(arguments: &[Vec<Cell>], c: usize, cells: &mut [Cell]) -> usize
    requires column { All (λ row. c < length row.items) arguments.now }
    requires room { length cells.old ≡ length arguments.now }
    ensures count { result ≤ length cells.old }
    ensures known { take result cells.new ≡ non_null_cells
        (argument_cells_at_column c arguments.now) }
{
    let mut count = 0;
    for other in arguments {
        let cell = argument_cell_at_column(other.as_slice(), c);
        cells[count] = cell;
        count += one_if_category_else_zero(cell);
    }
    count
}

// Returns the length of the run that continues with `cell`, or 0 if `cell` differs from the run's last cell.
fn length_of_continued_run(run: usize, last: Cell, cell: Cell) -> usize
    ensures { result ≡ (if cell_eq cell last then run else 0) }
{
    if cell == last { run } else { 0 }
}

// Returns the cell of the longer run, or of the first one if both have the same length.
fn cell_of_longer_run(best: Cell, most: usize, cell: Cell, run: usize) -> Cell
    ensures { result ≡ (if nat_lt most run then cell else best) }
{
    if most < run { cell } else { best }
}

// Returns the category of the longest run, or of the first one if several have this length.
fn category_of_longest_run(cells: &[Cell]) -> Cell
    requires known { All (λ cell. is_null cell ≡ false) cells.now }
    requires sorted { IsSorted compare_cells_null_last cells.now }
    ensures { (xs : List CellValue) → IsPermutation xs cells.now → result ≡ most_frequent xs }
{
    if cells.is_empty() {
        return Cell::null();
    }
    let mut best = argument_cell_at_column(cells, 0);
    let mut most = 1;
    let mut run = 1;
    for i in 1..cells.len() {
        let cell = argument_cell_at_column(cells, i);
        run = length_of_continued_run(run, argument_cell_at_column(cells, i - 1), cell) + 1;
        best = cell_of_longer_run(best, most, cell, run);
        most = most.max(run);
    }
    best
}

// Sorts the categories and returns the category of the longest run.
fn most_frequent(cells: &mut [Cell]) -> Cell
    requires { All (λ cell. is_null cell ≡ false) cells.old }
    ensures { result ≡ most_frequent cells.old }
{
    cells.sort_unstable();
    category_of_longest_run(cells)
}

fn column_mode_ignoring_null(arguments: &[Vec<Cell>], c: usize, cells: &mut [Cell]) -> Cell
    requires column { All (λ row. c < length row.items) arguments.now }
    requires room { length cells.old ≡ length arguments.now }
    ensures { result ≡ most_frequent (non_null_cells (argument_cells_at_column c arguments.now)) }
{
    let count = gather_categories_of_column(arguments, c, cells);
    most_frequent(&mut cells[..count])
}

// Writes the most frequent category of each column, one column after another.
fn write_modes_by_sorting(
    alloc: Global,
    arguments: &[Vec<Cell>],
    row: &mut [Cell],
) -> Result<(), Memory>
    requires { AreRowsOfWidth (length row.old) arguments.now }
    ensures { OnOk result (RowHoldsCellAtEachColumn row.old row.new
        (λ c. most_frequent (non_null_cells (argument_cells_at_column c arguments.now)))) }
{
    let mut spare = Vec::from_elem(alloc, Cell::null(), arguments.len())?;
    let cells = spare.as_mut_slice();
    for c in 0..row.len() {
        row[c] = column_mode_ignoring_null(arguments, c, cells);
    }
    Ok(())
}

/// Writes the most frequent category of each column, ignoring null.
pub fn write_modes_ignoring_null(
    alloc: Global,
    arguments: &[Vec<Cell>],
    row: &mut [Cell],
) -> Result<(), Memory>
    requires { AreRowsOfWidth (length row.old) arguments.now }
    ensures { OnOk result (RowHoldsCellAtEachColumn row.old row.new
        (λ c. most_frequent (non_null_cells (argument_cells_at_column c arguments.now)))) }
{
    if arguments.len() <= MOST_COMPARED_ARGUMENTS && row.len() >= BLOCK_COLUMNS {
        mode_lanes::write_modes_ignoring_null(alloc, arguments, row)
    } else {
        write_modes_by_sorting(alloc, arguments, row)
    }
}

// Returns `cell`, or null if `other` is null.
#[inline(always)]
fn cell_unless_other_null(cell: Cell, other: Cell) -> Cell
    ensures { result ≡ cell_unless_other_null cell other }
{
    if is_null(other) { other } else { cell }
}

fn copy_nulls_of_row(row: &mut [Cell], other: &[Cell])
    requires width { length other.now ≡ length row.old }
    ensures { RowHoldsCellAtEachColumn row.old row.new (λ c. cell_unless_other_null (at row.old c)
        (at other.now c)) }
{
    for i in 0..row.len() {
        row[i] = cell_unless_other_null(row[i], other[i]);
    }
}

/// Writes the most frequent cell of each column, or null if any cell of the column is null.
pub fn mode(alloc: Global, arguments: &[Vec<Cell>], row: &mut [Cell]) -> Result<(), Memory>
    requires { AreRowsOfWidth (length row.old) arguments.now }
    ensures { OnOk result (RowHoldsCellAtEachColumn row.old row.new
        (λ c. mode (argument_cells_at_column c arguments.now))) }
{
    write_modes_ignoring_null(alloc, arguments, row)?;
    for other in arguments {
        copy_nulls_of_row(row, other.as_slice());
    }
    Ok(())
}
