//! Stores nulls and small categories in one byte per cell.

ghost use Rattle.std.specs.Prelude.{◌≡◌, length, All, IfOk, true};
ghost use Rattle.cell_core_values.specs.SmallCells.{cell_of_stored_byte, cells_of_bytes, CellFitsInByte};

use crate::cell::Cell;
use crate::memory::Memory;
use std::alloc::Global;

// The byte that stands for null. Any other byte stands for the category with its value.
const NULL_BYTE: u8 = 255;

// The largest category that has a byte.
const GREATEST: i32 = 254;

/// Returns the cell that a byte stands for: null for 255, otherwise the category with its value.
#[inline(always)]
pub fn cell_of_byte(byte: u8) -> Cell
    ensures { result ≡ cell_of_stored_byte byte }
{
    if byte == NULL_BYTE {
        return Cell::null();
    }
    match Cell::value(i32::from(byte)) {
        Some(cell) => cell,
        None => Cell::null(),
    }
}

// Returns whether a byte stands for the cell.
#[inline(always)]
fn cell_fits_in_byte(cell: Cell) -> bool
    ensures { result ≡ true → CellFitsInByte cell }
{
    match cell.get() {
        Some(category) => category >= 0 && category <= GREATEST,
        None => true,
    }
}

// Returns the byte that stands for the cell.
#[inline(always)]
fn byte_of_cell(cell: Cell) -> u8
    requires { CellFitsInByte cell }
    ensures { cell_of_stored_byte result ≡ cell }
{
    match cell.get() {
        // No category is below 0 here. Repeating this bound avoids a special case for null when a vector converts
        // several cells at a time.
        Some(category) => category.max(-1) as u8,
        None => NULL_BYTE,
    }
}

/// Returns whether every cell has a byte.
pub fn cells_fit_in_bytes(cells: &[Cell]) -> bool
    ensures { result ≡ true → All CellFitsInByte cells.now }
{
    // If a row contains larger categories, its first cell usually does.
    if let Some(first) = cells.first() {
        if !cell_fits_in_byte(*first) {
            return false;
        }
    }
    // Checks every cell without stopping early, so that a vector can check several at a time.
    let mut all = true;
    for cell in cells {
        all = all & cell_fits_in_byte(*cell);
    }
    all
}

/// Returns the bytes that stand for cells. Allocates once.
///
/// # Errors
///
/// [`Memory`] if memory runs out.
pub fn bytes_of_cells(alloc: Global, cells: &[Cell]) -> Result<Vec<u8>, Memory>
    requires { All CellFitsInByte cells.now }
    ensures { IfOk result (λ bytes. cells_of_bytes bytes.items ≡ cells.now) }
{
    let mut bytes = vec![in alloc; NULL_BYTE; cells.len()]?;
    write_cells_as_bytes(cells, bytes.as_mut_slice());
    Ok(bytes)
}

/// Writes the bytes that stand for cells into a slice of the same length.
pub fn write_cells_as_bytes(cells: &[Cell], bytes: &mut [u8])
    requires small { All CellFitsInByte cells.now }
    requires size { length bytes.old ≡ length cells.now }
    ensures { cells_of_bytes bytes.new ≡ cells.now }
{
    for i in 0..bytes.len() {
        bytes[i] = byte_of_cell(cells[i]);
    }
}

/// Writes the cells that bytes stand for into a slice of the same length.
pub fn write_bytes_as_cells(bytes: &[u8], cells: &mut [Cell])
    requires { length cells.old ≡ length bytes.now }
    ensures { cells.new ≡ cells_of_bytes bytes.now }
{
    for i in 0..cells.len() {
        cells[i] = cell_of_byte(bytes[i]);
    }
}
