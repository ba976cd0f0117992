//! Counts the clumps that begin in each row of a tile.

ghost use Rattle.std.specs.Prelude.{◌≡◌, ◌<◌, ◌≤◌, ◌^◌, All, IfOk, length};
ghost use Rattle.cell_core.specs.Grid.{row_at};
ghost use Rattle.cell_join_tiles.specs.parts.Greatest.{greater_of_number_and_cell, greatest_of_number_and_cells};
ghost use Rattle.cell_join_tiles.specs.Borders.{BegunCountsAreMaximumRises};

use cell_core::cell::Cell;
use cell_core::map::CellMap;
use cell_core::memory::Memory;
use std::alloc::Global;

/// Returns the cells of a row.
///
/// # Errors
///
/// Returns [`Memory`] if memory runs out.
pub fn cells_of_map_row(alloc: Global, map: &CellMap, row: u32) -> Result<Vec<Cell>, Memory>
    requires { row < map.now.region.rows }
    ensures cells { IfOk result (λ cells. cells.items ≡ row_at map.now row) }
    ensures long { IfOk result (λ cells. length cells.items ≡ map.now.region.cols) }
{
    let mut cells = vec![in alloc; Cell::null(); map.region().cols() as usize]?;
    map.copy_row(row, cells.as_mut_slice());
    Ok(cells)
}

// Returns the larger of a number and a cell.
fn greater_of_number_and_cell(most: u64, cell: Cell) -> u64
    ensures greater { result ≡ greater_of_number_and_cell most cell }
    ensures small { most ≤ 2147483647 → result ≤ 2147483647 }
{
    let Some(category) = cell.get() else {
        return most;
    };
    match u64::try_from(category) {
        Ok(number) => most.max(number),
        Err(_) => most,
    }
}

// Returns the largest of a number and cells.
fn greatest_of_number_and_cells(most: u64, cells: &[Cell]) -> u64
    ensures greatest { result ≡ greatest_of_number_and_cells most cells.now }
    ensures small { most ≤ 2147483647 → result ≤ 2147483647 }
{
    let mut greatest = most;
    for cell in cells {
        greatest = greater_of_number_and_cell(greatest, *cell);
    }
    greatest
}

/// Returns the number of clumps that begin in each row, from the clump numbers of a tile.
///
/// # Errors
///
/// Returns [`Memory`] if memory runs out.
pub fn begun_clump_counts_by_row(alloc: Global, numbers: &CellMap) -> Result<Vec<u64>, Memory>
    ensures rises { IfOk result (λ begun. BegunCountsAreMaximumRises numbers.now.region.rows
        numbers.now begun.items) }
    ensures few { IfOk result (λ begun. All (λ count. count < 2 ^ 32) begun.items) }
{
    let mut begun = Vec::new(alloc);
    let mut most = 0;
    for row in 0..numbers.region().rows() {
        let cells = cells_of_map_row(alloc, numbers, row)?;
        let greatest = greatest_of_number_and_cells(most, &cells);
        begun.push(greatest - most)?;
        most = greatest;
    }
    Ok(begun)
}
