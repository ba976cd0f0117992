//! Writes the cells of maps as bytes.

ghost use Rattle.std.specs.Prelude.{◌≡◌, ◌<◌, ◌≤◌, ◌+◌, ◌++◌, ◌∷◌, IfOk, length, map, flat_map, take, drop, replicate};
ghost use Rattle.std.specs.List.{list_all};
ghost use Rattle.cell_core_values.specs.SmallCells.{cells_of_bytes};
ghost use Rattle.cell_core.specs.Grid.{row_at};
ghost use Rattle.cell_core.specs.Runs.{AreMaximalRuns, cells_of_runs};
ghost use Rattle.cell_core_devices.specs.Blocks.{IsTextAppendedThroughBlock};
ghost use Rattle.rcell_pipe_frames.specs.FrameBytes.{is_one_byte_cell, are_one_byte_cells, byte_of_cell, four_bytes_of_cell, cell_size_and_map_rows_bytes};

use crate::wide_cells::{FOUR_BYTE_ROW_BUFFER_BYTES, push_four_byte_row};
use cell_core::block::OutputBlock;
use cell_core::cell::Cell;
use cell_core::map::CellMap;
use cell_core::memory::Memory;
use cell_core::runs::Runs;
use cell_core::sink::Sink;
use std::alloc::Global;

// Returns whether a cell fits in a byte.
#[inline(always)]
fn is_one_byte_cell(cell: Cell) -> bool
    ensures { result ≡ is_one_byte_cell cell }
{
    match cell.get() {
        Some(category) => 0 <= category && category <= 254,
        None => true,
    }
}

// Returns whether each cell of a row fits in a byte.
fn is_one_byte_row(cells: &[Cell]) -> bool
    ensures { result ≡ list_all is_one_byte_cell cells.now }
{
    // There is no early exit, so that the loop can be vectorized.
    let mut all = true;
    for cell in cells {
        all = all & is_one_byte_cell(*cell);
    }
    all
}

// Returns whether the cell of each run fits in a byte.
fn are_one_byte_runs(runs: Runs<'_>) -> bool
    requires { AreMaximalRuns runs }
    ensures { result ≡ list_all is_one_byte_cell (cells_of_runs runs.entry) }
{
    for (cell, _) in runs {
        if !is_one_byte_cell(cell) {
            return false;
        }
    }
    true
}

// Returns true: each cell that is stored as a byte fits in a byte.
fn cells_stored_as_bytes_fit_in_byte(bytes: &[u8]) -> bool
    ensures { result ≡ list_all is_one_byte_cell (cells_of_bytes bytes.now) }
{
    // Only the proof looks at the bytes.
    let _ = bytes;
    true
}

// Returns whether each cell in a row of a map fits in a byte.
fn is_one_byte_map_row(grid: &CellMap, row: u32) -> bool
    requires { row < grid.now.region.rows }
    ensures { result ≡ list_all is_one_byte_cell (row_at grid.now row) }
{
    if let Some(bytes) = grid.bytes(row) {
        return cells_stored_as_bytes_fit_in_byte(bytes);
    }
    match grid.cells(row) {
        Some(cells) => is_one_byte_row(cells),
        None => are_one_byte_runs(grid.runs(row)),
    }
}

// Returns whether each cell of a map fits in a byte.
fn are_one_byte_cells(grid: &CellMap) -> bool
    ensures { result ≡ are_one_byte_cells grid.now.rows }
{
    for row in 0..grid.region().rows() {
        if !is_one_byte_map_row(grid, row) {
            return false;
        }
    }
    true
}

// Returns the byte that encodes a cell.
#[inline(always)]
fn byte_of_cell(cell: Cell) -> u8
    ensures { result ≡ byte_of_cell cell }
{
    match cell.get() {
        Some(category) => {
            if 0 <= category && category <= 254 {
                category as u8
            } else {
                255
            }
        }
        None => 255,
    }
}

// Writes a byte `count` times, starting at column `at`.
#[inline(always)]
fn fill_columns_with_byte(bytes: &mut [u8], at: usize, count: u32, byte: u8)
    requires { at + count ≤ length bytes.old }
    ensures width { length bytes.new ≡ length bytes.old }
    ensures value { bytes.new
        ≡ take at bytes.old ++ replicate count byte ++ drop (at + count) bytes.old }
{
    bytes[at..at + count as usize].fill(byte);
}

// Writes the bytes of the cells of runs.
fn write_bytes_of_runs(runs: Runs<'_>, bytes: &mut [u8])
    requires { length bytes.old ≡ length (cells_of_runs runs) }
    ensures width { length bytes.new ≡ length bytes.old }
    ensures value { bytes.new ≡ map byte_of_cell (cells_of_runs runs.entry) }
{
    let mut at = 0;
    for (cell, count) in runs {
        fill_columns_with_byte(bytes, at, count, byte_of_cell(cell));
        at += count as usize;
    }
}

// Appends a row that the map stores as bytes. The output uses the same bytes.
fn push_row_stored_as_bytes<W: Sink>(out: &mut W, block: &mut OutputBlock, kept: &[u8])
    ensures { IsTextAppendedThroughBlock W.taken W.faults out.old block.old
        (map byte_of_cell (cells_of_bytes kept.now)) out.new block.new }
{
    block.push(out, kept);
}

// Writes a row of a map, one byte per cell.
fn push_one_byte_row<W: Sink>(
    out: &mut W,
    block: &mut OutputBlock,
    grid: &CellMap,
    row: u32,
    bytes: &mut [u8],
)
    requires row { row < grid.now.region.rows }
    requires bytes { length bytes.old ≡ grid.now.region.cols }
    ensures pushed { IsTextAppendedThroughBlock W.taken W.faults out.old block.old
        (map byte_of_cell (row_at grid.now row)) out.new block.new }
    ensures width { length bytes.new ≡ length bytes.old }
{
    if let Some(kept) = grid.bytes(row) {
        push_row_stored_as_bytes(out, block, kept);
        return;
    }
    write_bytes_of_runs(grid.runs(row), bytes);
    block.push(out, bytes);
}

// Writes the rows of a map, one byte per cell.
fn push_one_byte_rows<W: Sink>(
    out: &mut W,
    block: &mut OutputBlock,
    grid: &CellMap,
    bytes: &mut [u8],
)
    requires { length bytes.old ≡ grid.now.region.cols }
    ensures { IsTextAppendedThroughBlock W.taken W.faults out.old block.old
        (flat_map (map byte_of_cell) grid.now.rows) out.new block.new }
{
    for row in 0..grid.region().rows() {
        push_one_byte_row(out, block, grid, row, bytes);
    }
}

// Writes the rows of a map, four bytes per cell.
fn push_four_byte_rows<W: Sink>(
    out: &mut W,
    block: &mut OutputBlock,
    grid: &CellMap,
    cells: &mut [Cell],
)
    requires { length cells.old ≡ grid.now.region.cols }
    ensures { IsTextAppendedThroughBlock W.taken W.faults out.old block.old
        (flat_map (flat_map four_bytes_of_cell) grid.now.rows) out.new block.new }
{
    let mut bytes = [0; FOUR_BYTE_ROW_BUFFER_BYTES];
    for row in 0..grid.region().rows() {
        grid.copy_row(row, cells);
        push_four_byte_row(out, block, cells, &mut bytes);
    }
}

/// Allocates the buffers that [`push_map_rows`] needs: for a row's cells, and for their bytes.
pub(crate) fn new_row_cell_and_byte_buffers(
    alloc: Global,
    grid: &CellMap,
) -> Result<(Vec<Cell>, Vec<u8>), Memory>
    ensures cells { IfOk result (λ both. length both.0.items ≡ grid.now.region.cols) }
    ensures bytes { IfOk result (λ both. length both.1.items ≡ grid.now.region.cols) }
{
    let cols = grid.region().cols() as usize;
    let Ok(cells) = vec![in alloc; Cell::null(); cols] else {
        return Err(Memory);
    };
    let Ok(bytes) = vec![in alloc; 0u8; cols] else {
        return Err(Memory);
    };
    Ok((cells, bytes))
}

/// Writes the cells of a map, row by row. The slices are buffers for a row's cells and their bytes.
pub(crate) fn push_map_rows<W: Sink>(
    out: &mut W,
    block: &mut OutputBlock,
    grid: &CellMap,
    cells: &mut [Cell],
    bytes: &mut [u8],
)
    requires cells { length cells.old ≡ grid.now.region.cols }
    requires bytes { length bytes.old ≡ grid.now.region.cols }
    ensures { IsTextAppendedThroughBlock W.taken W.faults out.old block.old
        (cell_size_and_map_rows_bytes grid.now.rows) out.new block.new }
{
    if are_one_byte_cells(grid) {
        block.push(out, &[1]);
        push_one_byte_rows(out, block, grid, bytes);
        return;
    }
    block.push(out, &[6]);
    push_four_byte_rows(out, block, grid, cells);
}
