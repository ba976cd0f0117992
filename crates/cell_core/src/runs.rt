//! The runs of a row: maximal groups of adjacent equal cells.

ghost use Rattle.std.specs.Prelude.{◌≡◌, ◌<◌, ◌≤◌, ◌+◌, ◌-◌, ◌++◌, ◌^◌, List, length, take, drop, replicate, All, None, IfOk, OnOk, slice_index_or};
ghost use Rattle.std.specs.Iterator.{YieldsFirst, item_count};
ghost use Rattle.cell_core_values.specs.Cell.{IsNullOrCategory};
ghost use Rattle.cell_core.specs.Grid.{CellValue};
ghost use Rattle.cell_core.specs.Runs.{RunValue, AreMaximalRuns, cells_of_runs};
ghost use Rattle.cell_core.specs.parts.RowForms.{alike, runs_of_cells, runs_continuing_first_run, bits_of_nonzero_bytes, run_start_mark_bits};
ghost use Rattle.cell_core_values.specs.SmallCells.{cells_of_bytes};

use crate::byte_runs::{count_leading_bytes_of_cell, number_of_byte_runs};
use cell_core_values::cell::Cell;
use cell_core_values::memory::Memory;
use cell_core_values::small_cells::cell_of_byte;
use std::alloc::Global;
use std::marker::Model;
use std::simd::prelude::*;

// Number of cells compared at a time.
pub(crate) const CELLS_COMPARED_AT_A_TIME: usize = 64;

// Returns the category of a cell, or `None` for null. The contract states that a cell is null or a category.
pub(crate) fn category_of_cell(cell: Cell) -> Option<i32>
    ensures value { result ≡ cell }
    ensures cell { IsNullOrCategory cell }
{
    cell.get()
}

// Returns the number of runs in a row. The contract also states that its cells are null or categories.
pub(crate) fn number_of_runs(row: &[Cell]) -> usize
    requires { length row.now < 2 ^ 32 }
    ensures count { result ≡ length (runs_of_cells row.now) }
    ensures cells { All IsNullOrCategory row.now }
{
    if row.is_empty() {
        return 0;
    }
    // A 32-bit counter lets a vector count as many cells as it compares. Counting the cells that continue a run takes
    // one step less than counting runs.
    let mut alike: u32 = 0;
    let mut last = row[0];
    for cell in row {
        // Reading each category lets the proof use its range. The count only compares cells, several at a time.
        let _ = category_of_cell(*cell);
        if *cell == last {
            alike = alike.wrapping_add(1);
        }
        last = *cell;
    }
    row.len() - alike as usize + 1
}

// Returns a mask of the bytes that are not 0.
#[inline(always)]
fn mask_of_nonzero_bytes(flags: &[u8]) -> u64
    requires { length flags.now ≡ 64 }
    ensures { result ≡ bits_of_nonzero_bytes flags.now }
{
    u8x64::from_slice(flags)
        .simd_ne(u8x64::splat(0))
        .to_bitmask()
}

// Marks which cells of a block differ from the previous cell, which is `cell` for the first. Bit k is for index k.
#[inline(always)]
fn run_start_bits_in_block(cell: Cell, block: &[Cell]) -> u64
    requires { length block.now ≡ 64 }
    ensures { result ≡ run_start_mark_bits cell block.now }
{
    // One byte per flag lets a vector compare several cells at a time.
    let mut flags = [0u8; 64];
    let mut last = cell;
    for j in 0..CELLS_COMPARED_AT_A_TIME {
        let next = block[j];
        flags[j] = (next != last) as u8;
        last = next;
    }
    mask_of_nonzero_bytes(&flags)
}

// Pushes the runs that end in a block. The first of them may have begun earlier. Returns the run that continues.
fn push_runs_ending_in_block(
    runs: &mut Vec<(Cell, u32)>,
    run: (Cell, u32),
    block: &[Cell],
) -> Result<(Cell, u32), Memory>
    requires size { length block.now ≡ 64 }
    requires room { run.1 + 64 < 2 ^ 32 }
    ensures runs { IfOk result (λ last. (more : List CellValue)
        → runs.new.items ++ runs_continuing_first_run last more
        ≡ runs.old.items ++ runs_continuing_first_run run (block.now ++ more)) }
    ensures count { IfOk result (λ last. last.1 ≤ run.1 + 64) }
{
    let mut cell = run.0;
    let mut count = run.1;
    let mut at = 0;
    let mut breaks = run_start_bits_in_block(run.0, block);
    'breaks: while breaks != 0 {
        let alike = breaks.trailing_zeros();
        runs.push((cell, count + alike))?;
        at += alike as usize;
        cell = block[at];
        count = 1;
        at += 1;
        breaks = (breaks >> alike) >> 1;
    }
    Ok((cell, count + (CELLS_COMPARED_AT_A_TIME - at) as u32))
}

// Pushes the runs of the last cells of a row. The first of them may have begun earlier.
pub(crate) fn push_runs_of_last_cells(
    runs: &mut Vec<(Cell, u32)>,
    run: (Cell, u32),
    cells: &[Cell],
) -> Result<(), Memory>
    requires { run.1 + length cells.now < 2 ^ 32 }
    ensures { OnOk result (runs.new.items ≡ runs.old.items
        ++ runs_continuing_first_run run cells.now) }
{
    let mut cell = run.0;
    let mut count = run.1;
    for next in cells {
        if *next == cell {
            count += 1;
        } else {
            runs.push((cell, count))?;
            cell = *next;
            count = 1;
        }
    }
    runs.push((cell, count))?;
    Ok(())
}

// Returns the runs of a row, of which there are `count_of_runs`. Allocates once.
pub(crate) fn runs_of_row(
    alloc: Global,
    row: &[Cell],
    count_of_runs: usize,
) -> Result<Vec<(Cell, u32)>, Memory>
    requires { length row.now < 2 ^ 32 }
    ensures written { IfOk result (λ runs. cells_of_runs runs.items ≡ row.now) }
    ensures runs { IfOk result (λ runs. AreMaximalRuns runs.items) }
{
    let mut runs = Vec::with_capacity(alloc, count_of_runs)?;
    if let Some((first, others)) = row.split_first() {
        let mut run = (*first, 1);
        let mut at = 0;
        'parts: while others.len() - at >= CELLS_COMPARED_AT_A_TIME {
            run = push_runs_ending_in_block(
                &mut runs,
                run,
                &others[at..at + CELLS_COMPARED_AT_A_TIME],
            )?;
            at += CELLS_COMPARED_AT_A_TIME;
        }
        push_runs_of_last_cells(&mut runs, run, &others[at..])?;
    }
    Ok(runs)
}

// Returns the cell at a column of a row given as runs, or null past the end.
pub(crate) fn cell_at_column_of_runs(runs: &[(Cell, u32)], col: u32) -> Cell
    ensures { result ≡ slice_index_or (cells_of_runs runs.now) col None }
{
    let mut left = col;
    for run in runs {
        if left < run.1 {
            return run.0;
        }
        left -= run.1;
    }
    Cell::null()
}

/// Writes a run to the cells of a row, starting at column `at`.
#[inline]
pub fn write_run_to_cells(cells: &mut [Cell], at: usize, run: (Cell, u32))
    requires { at + run.1 ≤ length cells.old }
    ensures { cells.new
        ≡ take at cells.old ++ replicate run.1 run.0 ++ drop (at + run.1) cells.old }
{
    cells[at..at + run.1 as usize].fill(run.0);
}

// Writes a row given as runs into a slice of the same length.
pub(crate) fn write_cells_of_runs(runs: &[(Cell, u32)], cells: &mut [Cell])
    requires { length cells.old ≡ length (cells_of_runs runs.now) }
    ensures { cells.new ≡ cells_of_runs runs.now }
{
    let mut at = 0;
    for run in runs {
        write_run_to_cells(cells, at, *run);
        at += run.1 as usize;
    }
}

// Returns the number of cells at the start that equal `cell`.
fn count_leading_equal_cells(cell: Cell, cells: &[Cell]) -> usize
    ensures value { result ≡ alike cell cells.now }
    ensures within { result ≤ length cells.now }
{
    let mut count: usize = 0;
    for next in cells {
        if *next != cell {
            return count;
        }
        count = count.wrapping_add(1);
    }
    count
}

/// An iterator over the runs of a row, from left to right. Each run is a cell and the number of times it is repeated,
/// at least 1. Adjacent runs have different cells. In contracts, its value is the list of remaining runs.
#[derive(Drop)]
pub struct Runs<'a> {
    rest: RemainingRuns<'a>,
}

// The form in which the remaining runs are stored.
#[derive(Drop)]
enum RemainingRuns<'a> {
    Runs(&'a [(Cell, u32)]),
    Bytes(&'a [u8]),
    Cells(&'a [Cell]),
}

impl<'a> Model for Runs<'a> {
    ghost use Rattle.std.specs.Prelude.{List};
    ghost use Rattle.cell_core.specs.Runs.{RunValue};
    ghost use Rattle.cell_core.specs.parts.RowForms.{runs_left, RemainingCellsFitInU32};

    ghost Value = { List RunValue };

    ghost view = { λ runs. runs_left runs.rest };

    ghost invariant = { λ runs. RemainingCellsFitInU32 runs.rest };
}

impl<'a> Runs<'a> {
    // Returns an iterator over given runs.
    pub(crate) fn over(runs: &'a [(Cell, u32)]) -> Runs<'a>
        ensures { result ≡ runs.now }
    {
        Runs {
            rest: RemainingRuns::Runs(runs),
        }
    }

    /// Returns the number of remaining runs.
    pub fn len(&self) -> usize
        ensures { result ≡ length self.now }
    {
        match &self.rest {
            RemainingRuns::Runs(runs) => runs.len(),
            RemainingRuns::Bytes(bytes) => number_of_byte_runs(bytes),
            RemainingRuns::Cells(cells) => number_of_runs(cells),
        }
    }

    // Returns an iterator over the runs of cells stored as bytes.
    pub(crate) fn of_bytes(bytes: &'a [u8]) -> Runs<'a>
        requires { length bytes.now < 2 ^ 32 }
        ensures { result ≡ runs_of_cells (cells_of_bytes bytes.now) }
    {
        Runs {
            rest: RemainingRuns::Bytes(bytes),
        }
    }

    // Returns an iterator over the runs of cells.
    pub(crate) fn of_cells(cells: &'a [Cell]) -> Runs<'a>
        requires { length cells.now < 2 ^ 32 }
        ensures { result ≡ runs_of_cells cells.now }
    {
        Runs {
            rest: RemainingRuns::Cells(cells),
        }
    }
}

impl<'a> Iterator for Runs<'a> {
    type Item = (Cell, u32);

    ghost next_gives = { YieldsFirst (λ s. s) };

    ghost remaining = { item_count (λ s. s) };

    fn next(&mut self) -> Option<(Cell, u32)> {
        match &self.rest {
            RemainingRuns::Runs(runs) => {
                let (first, others) = runs.split_first()?;
                self.rest = RemainingRuns::Runs(others);
                Some(*first)
            }
            RemainingRuns::Cells(cells) => {
                let (first, others) = cells.split_first()?;
                let alike = count_leading_equal_cells(*first, others);
                self.rest = RemainingRuns::Cells(&others[alike..]);
                Some((*first, 1 + alike as u32))
            }
            RemainingRuns::Bytes(bytes) => {
                let (first, others) = bytes.split_first()?;
                let cell = cell_of_byte(*first);
                let alike = count_leading_bytes_of_cell(cell, others);
                self.rest = RemainingRuns::Bytes(&others[alike..]);
                Some((cell, 1 + alike as u32))
            }
        }
    }
}
