//! Walks along the rows of several maps, run by run.

ghost use Rattle.std.specs.Prelude.{◌≡◌, ◌<◌, ◌≤◌, length, map, drop, All, OnOk, IfOk};
ghost use Rattle.cell_core.specs.Grid.{row_at};
ghost use Rattle.cell_core.specs.Runs.{cells_of_runs};
ghost use Rattle.cell_stats_combinations.specs.Combinations.{ArePicksOnShelf};
ghost use Rattle.cell_stats_combinations.specs.Cursors.{to_come, CursorHasNoEmptyLaterRun, RowsAreAsWideAsRegion, row_of_map_at_place};

use cell_core::cell::Cell;
use cell_core::map::CellMap;
use cell_core::memory::Memory;
use cell_core::shelf::Shelf;
use cell_core::stretches::RunsOrCells;
use std::alloc::Global;
use std::marker::Model;

/// A position in a row: the current cell, the remaining number of columns with this cell, and the runs after them.
#[derive(Drop)]
pub struct RowCursor<'a> {
    runs: RunsOrCells<'a>,
    cell: Cell,
    left: u32,
}

impl<'a> Model for RowCursor<'a> {
    ghost use Rattle.cell_stats_combinations.specs.Cursors.{RunCursorValue, cursor_encoding};

    ghost Value = { RunCursorValue };

    ghost coded = { cursor_encoding };

    ghost view = { λ c. record { runs = c.runs; cell = c.cell; left = c.left } };
}

impl<'a> RowCursor<'a> {
    // Returns a cursor at the first cell of a row.
    fn over(mut runs: RunsOrCells<'a>) -> RowCursor<'a>
        requires { All (λ run. 0 < run.1) runs }
        ensures cells { to_come result ≡ cells_of_runs runs.entry }
        ensures ready { CursorHasNoEmptyLaterRun result }
    {
        match runs.next() {
            Some((cell, left)) => RowCursor { runs, cell, left },
            None => RowCursor {
                runs,
                cell: Cell::null(),
                left: 0,
            },
        }
    }

    // Moves by `count` columns of the current run.
    #[inline(always)]
    fn pass(&mut self, count: u32)
        requires within { count ≤ self.old.left }
        requires ready { CursorHasNoEmptyLaterRun self.old }
        ensures cells { to_come self.new ≡ drop count (to_come self.old) }
        ensures ready { CursorHasNoEmptyLaterRun self.new }
    {
        self.left -= count;
        if self.left == 0 {
            if let Some((cell, left)) = self.runs.next() {
                self.cell = cell;
                self.left = left;
            }
        }
    }
}

/// Returns a cursor at the first cell of a row of a map.
pub fn start<'a>(map: &'a CellMap, row: u32) -> RowCursor<'a>
    requires { row < map.now.region.rows }
    ensures cells { to_come result ≡ row_at map.now row }
    ensures width { length (row_at map.now row) ≡ map.now.region.cols }
    ensures ready { CursorHasNoEmptyLaterRun result }
{
    RowCursor::over(map.stretches(row))
}

// Returns cursors at the first cell of a row of each picked map.
fn cursors_at_row_start<'a>(
    alloc: Global,
    shelf: &'a Shelf,
    picks: &[usize],
    row: u32,
) -> Result<Vec<RowCursor<'a>>, Memory>
    requires picked { ArePicksOnShelf shelf.now picks.now }
    requires row_in_range { row < shelf.now.region.rows }
    ensures cells { IfOk result
        (λ cursors. map to_come cursors.items ≡ map
        (row_of_map_at_place shelf.now.maps row) picks.now) }
    ensures width { OnOk result (RowsAreAsWideAsRegion shelf.now row picks.now) }
    ensures ready { IfOk result (λ cursors. All CursorHasNoEmptyLaterRun cursors.items) }
{
    let mut cursors = Vec::with_capacity(alloc, picks.len())?;
    for place in picks {
        cursors.push(start(shelf.map(*place), row))?;
    }
    Ok(cursors)
}

/// Returns cursors over the picked maps, in the last row. They are then moved from row to row, so that memory is
/// allocated once.
///
/// # Errors
///
/// `Memory` if memory runs out.
pub fn cursors_over_maps<'a>(
    alloc: Global,
    shelf: &'a Shelf,
    picks: &[usize],
) -> Result<Vec<RowCursor<'a>>, Memory>
    requires { ArePicksOnShelf shelf.now picks.now }
    ensures { IfOk result (λ cursors. length cursors.items ≡ length picks.now) }
{
    let row = shelf.region().rows() - 1;
    cursors_at_row_start(alloc, shelf, picks, row)
}

/// Moves all cursors to the first cell of a row.
pub fn move_cursors_to_row_start<'a>(
    cursors: &mut [RowCursor<'a>],
    shelf: &'a Shelf,
    picks: &[usize],
    row: u32,
)
    requires picked { ArePicksOnShelf shelf.now picks.now }
    requires row_in_range { row < shelf.now.region.rows }
    requires width { length cursors.old ≡ length picks.now }
    ensures cells { map to_come cursors.new ≡ map
        (row_of_map_at_place shelf.now.maps row) picks.now }
    ensures width { RowsAreAsWideAsRegion shelf.now row picks.now }
    ensures ready { All CursorHasNoEmptyLaterRun cursors.new }
{
    for i in 0..picks.len() {
        cursors[i] = start(shelf.map(picks[i]), row);
    }
}

// Returns the smaller of two numbers of columns.
fn lesser_column_count(a: u32, b: u32) -> u32
    ensures first { result ≤ a }
    ensures second { result ≤ b }
    ensures some { 0 < a → 0 < b → 0 < result }
{
    a.min(b)
}

/// Moves all cursors by `count` columns of their current runs, and writes the cells there. Returns for how many of the
/// next `left` columns all cells stay the same.
#[inline(always)]
pub fn advance_cursors_and_write_cells(
    cursors: &mut [RowCursor],
    count: u32,
    left: u32,
    cells: &mut [Cell],
) -> u32
    requires within { All (λ c. count ≤ c.left) cursors.old }
    requires ready { All CursorHasNoEmptyLaterRun cursors.old }
    requires width { length cells.old ≡ length cursors.old }
    ensures cells { cells.new ≡ map (λ c. c.cell) cursors.new }
    ensures passed { map to_come cursors.new ≡ map (λ c. drop count (to_come c)) cursors.old }
    ensures ready { All CursorHasNoEmptyLaterRun cursors.new }
    ensures least { All (λ c. result ≤ c.left) cursors.new }
    ensures most { result ≤ left }
    ensures some { All (λ c. 0 < c.left) cursors.new → 0 < left → 0 < result }
{
    let mut least = left;
    for i in 0..cursors.len() {
        let cursor = &mut cursors[i];
        cursor.pass(count);
        cells[i] = cursor.cell;
        least = lesser_column_count(least, cursor.left);
    }
    least
}
