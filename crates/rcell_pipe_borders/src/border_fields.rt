//! Reads cells, and the border of a tile.

ghost use Rattle.std.specs.Prelude.{◌≡◌, ◌+◌, ◌<◌, ◌≤◌, ◌^◌, ◌*◌, [], length, sum, OnOk, IfOk};
ghost use Rattle.cell_core_values.specs.Cell.{cell_of_stored_number};
ghost use Rattle.cell_join_tiles.specs.Values.{value_of_tile_border, value_of_tile_side};
ghost use Rattle.rcell_pipe_request.specs.RequestFields.{reading_repeated_n_times};
ghost use Rattle.rcell_pipe_request.specs.Feeds.{ReadsRequestFieldAndStaysOpen};
ghost use Rattle.rcell_pipe_borders.specs.BorderGrids.{row_patch_counts_reading, border_fields_reading, row_patch_counts_with_next_reading, cells_with_next_cell_reading, tile_side_reading, four_byte_cells_reading};

use cell_core::cell::Cell;
use cell_join_tiles::border::{TileBorder, TileSide};
use rcell_pipe_request::error::FieldReadingStop;
use rcell_pipe_request::feed::{Feed, read_i32, read_u32};
use std::alloc::Global;
use std::io::Read;

/// Returns the cell that a number denotes: null for the smallest.
pub fn cell_of_four_byte_number(number: i32) -> Cell
    ensures { result ≡ cell_of_stored_number number }
{
    match Cell::value(number) {
        Some(cell) => cell,
        None => Cell::null(),
    }
}

// Reads one more cell.
#[tactic(auto, unfolding(crate::specs::BorderGrids::cells_with_next_cell_reading))]
fn read_next_cell<R: Read>(
    feed: &mut Feed<R>,
    cells: &mut Vec<Cell>,
) -> Result<(), FieldReadingStop>
    ensures reads { ReadsRequestFieldAndStaysOpen (λ _. cells.new.items) feed.old result feed.new
        (cells_with_next_cell_reading cells.old.items) }
    ensures count { OnOk result (length cells.new.items ≡ length cells.old.items + 1) }
{
    let number = read_i32(feed)?;
    cells.push(cell_of_four_byte_number(number))?;
    Ok(())
}

/// Reads `count` cells.
pub fn read_four_byte_cells<R: Read>(
    alloc: Global,
    feed: &mut Feed<R>,
    count: u32,
) -> Result<Vec<Cell>, FieldReadingStop>
    ensures reads { ReadsRequestFieldAndStaysOpen (λ cells. cells.items) feed.old result feed.new
        (four_byte_cells_reading count) }
    ensures count { IfOk result (λ cells. length cells.items ≡ count) }
{
    let mut cells = Vec::new(alloc);
    for i in 0..count {
        match read_next_cell(feed, &mut cells) {
            Ok(()) => {}
            Err(stop) => return Err(stop),
        }
    }
    Ok(cells)
}

// Reads the cells of a side, and their patches' numbers.
#[tactic(auto, unfolding(crate::specs::BorderGrids::tile_side_reading))]
fn read_tile_side<R: Read>(
    alloc: Global,
    feed: &mut Feed<R>,
    count: u32,
) -> Result<TileSide, FieldReadingStop>
    ensures reads { ReadsRequestFieldAndStaysOpen value_of_tile_side feed.old result feed.new
        (tile_side_reading count) }
    ensures cells { IfOk result (λ side. length side.cells.items ≡ count) }
{
    let cells = read_four_byte_cells(alloc, feed, count)?;
    let numbers = read_four_byte_cells(alloc, feed, count)?;
    Ok(TileSide { cells, numbers })
}

// Reads the number of patches that begin in one more row.
#[tactic(auto, unfolding(crate::specs::BorderGrids::row_patch_counts_with_next_reading))]
fn read_next_row_patch_count<R: Read>(
    feed: &mut Feed<R>,
    begun: &mut Vec<u64>,
) -> Result<(), FieldReadingStop>
    ensures reads { ReadsRequestFieldAndStaysOpen (λ _. begun.new.items) feed.old result feed.new
        (row_patch_counts_with_next_reading begun.old.items) }
    ensures count { OnOk result (length begun.new.items ≡ length begun.old.items + 1) }
    ensures few { OnOk result (sum begun.new.items ≤ sum begun.old.items + 4294967295) }
{
    let count = read_u32(feed)?;
    begun.push(count as u64)?;
    Ok(())
}

// Reads the number of patches that begin in each row.
fn read_row_patch_counts<R: Read>(
    alloc: Global,
    feed: &mut Feed<R>,
    rows: u32,
) -> Result<Vec<u64>, FieldReadingStop>
    requires { rows ≤ 65535 }
    ensures reads { ReadsRequestFieldAndStaysOpen (λ begun. begun.items) feed.old result feed.new
        (row_patch_counts_reading rows) }
    ensures count { IfOk result (λ begun. length begun.items ≡ rows) }
    ensures few { IfOk result (λ begun. sum begun.items < 2 ^ 64) }
{
    let mut begun = Vec::new(alloc);
    for i in 0..rows {
        match read_next_row_patch_count(feed, &mut begun) {
            Ok(()) => {}
            Err(stop) => return Err(stop),
        }
    }
    Ok(begun)
}

/// Reads the border of a tile of this size.
#[tactic(auto, unfolding(crate::specs::BorderGrids::border_fields_reading))]
pub(crate) fn read_border_fields<R: Read>(
    alloc: Global,
    feed: &mut Feed<R>,
    rows: u32,
    cols: u32,
) -> Result<TileBorder, FieldReadingStop>
    requires { rows ≤ 65535 }
    ensures reads { ReadsRequestFieldAndStaysOpen value_of_tile_border feed.old result feed.new
        (border_fields_reading rows cols) }
    ensures rows { IfOk result (λ border. length border.begun.items ≡ rows) }
    ensures cols { IfOk result (λ border. length border.first.cells.items ≡ cols) }
    ensures few { IfOk result (λ border. sum border.begun.items < 2 ^ 64) }
{
    let first = read_tile_side(alloc, feed, cols)?;
    let last = read_tile_side(alloc, feed, cols)?;
    let left = read_tile_side(alloc, feed, rows)?;
    let right = read_tile_side(alloc, feed, rows)?;
    let begun = read_row_patch_counts(alloc, feed, rows)?;
    Ok(TileBorder {
        first,
        last,
        left,
        right,
        begun,
    })
}
