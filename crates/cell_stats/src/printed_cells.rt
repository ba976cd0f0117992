//! Prints cells, one line per cell.

ghost use Rattle.std.specs.Prelude.{◌≡◌, ◌<◌, length, replicate, IfOk};
ghost use Rattle.cell_core_devices.specs.Blocks.{IsTextAppendedThroughBlock};
ghost use Rattle.cell_stats_combinations.specs.Combinations.{ArePicksOnShelf};
ghost use Rattle.cell_stats.specs.TableText.{cell_lines};
ghost use Rattle.cell_stats.specs.parts.OfPicks.{HasCellPerPickedMap};
ghost use Rattle.cell_stats.specs.parts.Selected.{lines_of_kept_cells, combinations_of_selected_row};

use crate::format::TableFormat;
use crate::printing::write_cell_line;
use cell_core::block::OutputBlock;
use cell_core::cell::Cell;
use cell_core::memory::Memory;
use cell_core::shelf::Shelf;
use cell_core::sink::Sink;
use cell_stats_combinations::cursor::{
    RowCursor, advance_cursors_and_write_cells, cursors_over_maps, move_cursors_to_row_start,
};
use cell_stats_combinations::selection::TabulatedMaps;
use cell_stats_combinations::skip::{Skip, combination_is_left_out};
use std::alloc::Global;
use std::marker::Model;

/// Holds the memory for a walk over the cells of several maps of a shelf. In contracts, its value is the number of
/// maps.
///
/// It is allocated before the walk, because `-1` of r.stats prints during the walk, and a statement that runs out of
/// memory must not have written anything.
#[derive(Drop)]
pub struct CellWalkMemory<'a> {
    cursors: Vec<RowCursor<'a>>,
    cells: Vec<Cell>,
}

impl<'a> Model for CellWalkMemory<'a> {
    ghost use Rattle.std.specs.Prelude.{ℕ, ◌≡◌, length};

    ghost Value = { ℕ };

    ghost view = { λ walk. length walk.cells.items };

    ghost invariant = { λ walk. length walk.cursors.items ≡ length walk.cells.items };
}

impl<'a> CellWalkMemory<'a> {
    /// Allocates the memory for a walk over the picked maps, given by their indices on the shelf.
    ///
    /// # Errors
    ///
    /// `Memory` if memory runs out.
    pub fn new(
        alloc: Global,
        shelf: &'a Shelf,
        picks: &[usize],
    ) -> Result<CellWalkMemory<'a>, Memory>
        requires { ArePicksOnShelf shelf.now picks.now }
        ensures { IfOk result (λ walk. walk ≡ length picks.now) }
    {
        let cursors = cursors_over_maps(alloc, shelf, picks)?;
        let cells = vec![in alloc; Cell::null(); picks.len()]?;
        Ok(CellWalkMemory { cursors, cells })
    }
}

// Writes a line for each of `count` equal cells, or nothing if they are left out.
fn write_lines_of_equal_cells<W: Sink>(
    out: &mut W,
    block: &mut OutputBlock,
    selection: TabulatedMaps<'_, '_>,
    cells: &[Cell],
    count: u32,
    format: &TableFormat,
)
    requires { HasCellPerPickedMap selection.shelf.now selection.picks.now cells.now }
    ensures { IsTextAppendedThroughBlock W.taken W.faults out.old block.old
        (lines_of_kept_cells format.now selection.entry
        (replicate count cells.now)) out.new block.new }
{
    if combination_is_left_out(selection.skip, cells) {
        return;
    }
    for line in 0..count {
        write_cell_line(out, block, selection.shelf, selection.picks, cells, format);
    }
}

// Writes a line for each cell of a row.
#[tactic(auto, using(crate::proofs::CellsLemmas::stands_none, crate::proofs::CellsLemmas::stands_picks, crate::proofs::CellsLemmas::stands_fits, crate::proofs::CellsLemmas::stands_cells, crate::proofs::CellsLemmas::stands_smaller))]
fn write_cell_lines_of_row<'a, W: Sink>(
    out: &mut W,
    block: &mut OutputBlock,
    selection: TabulatedMaps<'a, '_>,
    format: &TableFormat,
    row: u32,
    cursors: &mut [RowCursor<'a>],
    cells: &mut [Cell],
)
    requires picks { HasCellPerPickedMap selection.shelf.now selection.picks.now cells.old }
    requires row_in_range { row < selection.shelf.now.region.rows }
    requires cursors { length cursors.old ≡ length selection.picks.now }
    ensures { IsTextAppendedThroughBlock W.taken W.faults out.old block.old
        (lines_of_kept_cells format.now selection.entry
        (combinations_of_selected_row selection.entry row))
        out.new block.new }
{
    let cols = selection.shelf.region().cols();
    move_cursors_to_row_start(cursors, selection.shelf, selection.picks, row);
    let mut col = 0;
    let mut count = advance_cursors_and_write_cells(cursors, 0, cols, cells);
    while col < cols {
        write_lines_of_equal_cells(out, block, selection, cells, count, format);
        col += count;
        count = advance_cursors_and_write_cells(cursors, count, cols - col, cells);
    }
}

/// Writes a line for each cell of the picked maps that is not left out, row by row from the top left. Does not
/// allocate, because the walk holds the memory.
///
/// The block keeps the last part of the text. After a failed put, nothing more is written.
pub fn write_line_for_each_cell<'a, W: Sink>(
    out: &mut W,
    block: &mut OutputBlock,
    walk: CellWalkMemory<'a>,
    shelf: &'a Shelf,
    picks: &[usize],
    skip: Skip,
    format: &TableFormat,
)
    requires picked { ArePicksOnShelf shelf.now picks.now }
    requires some { 0 < length picks.now }
    requires width { walk ≡ length picks.now }
    ensures { IsTextAppendedThroughBlock W.taken W.faults out.old block.old
        (cell_lines format.now skip shelf.now.maps picks.now
        shelf.now.region.rows shelf.now.region.cols)
        out.new block.new }
{
    let CellWalkMemory {
        mut cursors,
        mut cells,
    } = walk;
    let cursors = cursors.as_mut_slice();
    let cells = cells.as_mut_slice();
    let selection = TabulatedMaps { shelf, picks, skip };
    for row in 0..shelf.region().rows() {
        if block.has_failed() {
            return;
        }
        write_cell_lines_of_row(out, block, selection, format, row, cursors, cells);
    }
}
