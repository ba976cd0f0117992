//! A row of a map and its neighbouring rows.

ghost use Rattle.std.specs.Prelude.{◌≡◌, ◌≢◌, ℕ, ◌+◌, ◌<◌, ◌≤◌, length, None, slice_index_or};
ghost use Rattle.cell_core.specs.Grid.{cell_at};
ghost use Rattle.cell_patches.specs.parts.Passes.{west_cell_in_row_or_null, outer_side_count_in_first_columns};
ghost use Rattle.cell_patches.specs.TilePatches.{one_if_side_leaves_category};

use cell_core::cell::Cell;
use cell_core::map::CellMap;

// A row of a map, the two rows above it and the row below it; null outside the map.
#[derive(Clone, Copy)]
pub(crate) struct RowsAroundRow<'a> {
    pub(crate) second_above: &'a [Cell],
    pub(crate) above: &'a [Cell],
    pub(crate) here: &'a [Cell],
    pub(crate) below: &'a [Cell],
}

// Sets all cells to null.
fn set_cells_to_null(cells: &mut [Cell])
    ensures { (c : ℕ) → slice_index_or cells.new c None ≡ None }
{
    for i in 0..cells.len() {
        cells[i] = Cell::null();
    }
}

// Copies the row below `row`, or nulls outside the map.
pub(crate) fn copy_row_below(map: &CellMap, row: u32, cells: &mut [Cell])
    requires row { row < map.now.region.rows }
    requires wide { length cells.old ≡ map.now.region.cols }
    ensures { (c : ℕ) → slice_index_or cells.new c None ≡ cell_at map.now (row + 1) c }
{
    let below = row.saturating_add(1);
    if below < map.region().rows() {
        map.copy_row(below, cells);
    } else {
        set_cells_to_null(cells);
    }
}

// Returns the cell at a column of a row, or null outside the map.
#[inline(always)]
pub(crate) fn cell_in_column_or_null(line: &[Cell], col: usize) -> Cell
    ensures { result ≡ slice_index_or line.now col None }
{
    match line.get(col) {
        Some(cell) => *cell,
        None => Cell::null(),
    }
}

// Returns 1 if the side between `cell` and `beyond` leads out of the category of `cell`, otherwise 0.
#[inline(always)]
fn one_if_side_leaves_category(cell: Cell, beyond: Cell) -> u32
    ensures value { result ≡ one_if_side_leaves_category cell beyond }
    ensures most { result ≤ 1 }
{
    if beyond == cell { 0 } else { 1 }
}

// Returns the cell to the west, or null in the first column.
#[inline(always)]
fn west_cell_in_row_or_null(line: &[Cell], col: usize) -> Cell
    ensures { result ≡ west_cell_in_row_or_null line.now col }
{
    if col == 0 {
        Cell::null()
    } else {
        cell_in_column_or_null(line, col - 1)
    }
}

// Counts the sides of a run of `count` cells of a category that lead out of it to the row `beyond`.
#[inline(always)]
pub(crate) fn count_outer_sides(class: Cell, beyond: &[Cell], first: usize, count: u32) -> u64
    requires class { class ≢ None }
    requires end { first + count < 18446744073709551616 }
    ensures sides { result + outer_side_count_in_first_columns class beyond.now first
        ≡ outer_side_count_in_first_columns class beyond.now (first + count) }
    ensures most { result ≤ count }
{
    // Most runs of noise are one cell, and a vector takes longer to count it.
    if count == 1 {
        return one_if_side_leaves_category(class, cell_in_column_or_null(beyond, first)) as u64;
    }
    let end = first + count as usize;
    let known = end.min(beyond.len()).max(first);
    // A 32-bit counter lets a vector count as many cells as it compares.
    let mut sides = (end - known) as u32;
    for col in first..known {
        sides += one_if_side_leaves_category(class, beyond[col]);
    }
    sides as u64
}

// Counts the west and east sides of a run, in columns `first` to `end`, that lead out of its category.
#[inline(always)]
pub(crate) fn count_outer_west_east_sides(
    lines: &RowsAroundRow<'_>,
    class: Cell,
    first: usize,
    end: usize,
) -> u64
    ensures { result ≡ one_if_side_leaves_category class
        (west_cell_in_row_or_null lines.now.here.now first)
        + one_if_side_leaves_category class (slice_index_or lines.now.here.now end None) }
{
    let west = one_if_side_leaves_category(class, west_cell_in_row_or_null(lines.here, first));
    let east = one_if_side_leaves_category(class, cell_in_column_or_null(lines.here, end));
    (west + east) as u64
}
