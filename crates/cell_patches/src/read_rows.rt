//! Adds up the measures of patches over the cells of a row.

ghost use Rattle.std.specs.Prelude.{◌≡◌, ◌≢◌, ℕ, ℤ, pos, Some, None, slice_index_or, ◌+◌, ◌-◌, ◌<◌, ◌≤◌, length, max, OnOk, IfOk, All};
ghost use Rattle.std.specs.Option.{is_none};
ghost use Rattle.cell_core.specs.Grid.{cell_at, row_at};
ghost use Rattle.cell_core.specs.Runs.{cells_of_runs};
ghost use Rattle.cell_patches.specs.parts.Passes.{patch_at_index_or_unread, PatchMeasuresCannotOverflow, IsRunAddedToPatch, AreMeasuresOfPatchesUpToCell, IsRunContributionFromRows, CanMeasurePatchesInRun, CanMeasurePatchesInRow, HaveSameCores, TileOfMap, AreRowsAroundRow, AreValidPatchNumbers, tile_rows_before};

use crate::near_rows::{
    RowsAroundRow, copy_row_below, count_outer_sides, count_outer_west_east_sides,
};
use crate::patch::{Patch, RunContribution};
use crate::tile_position::TilePosition;
use cell_core::cell::Cell;
use cell_core::map::CellMap;
use cell_core::memory::Memory;
use cell_core::stretches::RunsOrCells;
use std::alloc::Global;

// Extends the list to at least `count` patches.
#[inline(always)]
fn extend_patch_list(patches: &mut Vec<Patch>, count: usize) -> Result<(), Memory>
    ensures same { OnOk result ((k : ℕ)
        → patch_at_index_or_unread patches.new.items k
        ≡ patch_at_index_or_unread patches.old.items k) }
    ensures long { OnOk result
        (length patches.new.items ≡ max (length patches.old.items) count) }
{
    while patches.len() < count {
        patches.push(Patch::unread())?;
    }
    Ok(())
}

// Adds a run to the patch with this number.
#[inline(always)]
fn add_run_to_numbered_patch(
    patches: &mut Vec<Patch>,
    number: u32,
    found: RunContribution,
) -> Result<(), Memory>
    requires least { 1 ≤ number }
    requires room { PatchMeasuresCannotOverflow (patch_at_index_or_unread patches.old.items
        (number - 1)) found }
    ensures { OnOk result (IsRunAddedToPatch patches.old.items patches.new.items
        (number - 1) found) }
{
    extend_patch_list(patches, number as usize)?;
    let place = number as usize - 1;
    patches[place].add(found);
    Ok(())
}

// Returns the category of a cell, or 0 for null.
#[inline(always)]
fn category_or_zero(cell: Cell) -> i32
    ensures { (v : ℤ) → cell ≡ Some v → result ≡ v }
{
    match cell.get() {
        Some(category) => category,
        None => 0,
    }
}

// Returns the patch number of a cell, or 0 for null.
#[inline(always)]
pub(crate) fn patch_number_or_zero(cell: Cell) -> u32
    ensures { (n : ℕ) → cell ≡ Some (pos n) → result ≡ n }
{
    match cell.get() {
        Some(number) => number.unsigned_abs(),
        None => 0,
    }
}

// Returns whether a cell is null.
#[inline(always)]
pub(crate) fn is_null(cell: Cell) -> bool
    ensures { result ≡ is_none cell }
{
    cell.get().is_none()
}

// Returns the contribution of a run to its patch. The run begins at column `at` of the row around which the lines are,
// and at `row` and `col` in the full map.
#[inline(always)]
fn contribution_of_run(
    lines: &RowsAroundRow<'_>,
    at: usize,
    count: u32,
    row: u32,
    col: u32,
) -> RunContribution
    requires some { 0 < count }
    requires within { at + count ≤ length lines.now.here.now }
    requires last_col { col + count < 4294967296 }
    requires class { slice_index_or lines.now.here.now at None ≢ None }
    ensures { IsRunContributionFromRows lines.now (slice_index_or lines.now.here.now at None) at
        count row col result }
{
    let class = lines.here[at];
    let end = at + count as usize;
    RunContribution {
        class: category_or_zero(class),
        cells: count as u64,
        ends: count_outer_sides(class, lines.above, at, count)
            + count_outer_sides(class, lines.below, at, count),
        flanks: count_outer_west_east_sides(lines, class, at, end),
        row,
        first_col: col,
        last_col: col + (count - 1),
    }
}

// Adds a run of a tile to its patch, if it is in one.
#[inline(always)]
fn add_run(
    patches: &mut Vec<Patch>,
    lines: &RowsAroundRow<'_>,
    run: (Cell, u32),
    position: TilePosition,
    row: u32,
    col: u32,
) -> Result<(), Memory>
    ghost tile: { TileOfMap }
    requires ready { CanMeasurePatchesInRun tile position row col lines.now run }
    requires read { AreMeasuresOfPatchesUpToCell tile row col patches.old.items }
    ensures read { OnOk result
        (AreMeasuresOfPatchesUpToCell tile row (col + run.1) patches.new.items) }
    ensures cores { OnOk result (HaveSameCores patches.old.items patches.new.items) }
{
    if is_null(run.0) {
        return Ok(());
    }
    let found = contribution_of_run(
        lines,
        position.left as usize + col as usize,
        run.1,
        position.first_row + row,
        position.first_col + col,
    );
    add_run_to_numbered_patch(patches, patch_number_or_zero(run.0), found)
}

// Adds the runs of a row of a tile to their patches.
#[inline(never)]
fn add_row_of_runs_to_patches(
    patches: &mut Vec<Patch>,
    lines: &RowsAroundRow<'_>,
    numbers: RunsOrCells<'_>,
    position: TilePosition,
    row: u32,
) -> Result<(), Memory>
    ghost tile: { TileOfMap }
    requires ready { CanMeasurePatchesInRow tile position row lines.now }
    requires numbers { cells_of_runs numbers ≡ row_at tile.numbers row }
    requires wide { length (cells_of_runs numbers) ≡ tile.numbers.region.cols }
    requires some { All (λ run. 0 < run.1) numbers }
    requires read { AreMeasuresOfPatchesUpToCell tile row 0 patches.old.items }
    ensures read { OnOk result (AreMeasuresOfPatchesUpToCell tile (row + 1) 0 patches.new.items) }
    ensures cores { OnOk result (HaveSameCores patches.old.items patches.new.items) }
{
    let mut col: u32 = 0;
    for (number, count) in numbers {
        add_run(patches, lines, (number, count), position, row, col)?;
        col += count;
    }
    Ok(())
}

// Returns a row of a map.
pub(crate) fn row_of_map(alloc: Global, map: &CellMap, row: u32) -> Result<Vec<Cell>, Memory>
    requires { row < map.now.region.rows }
    ensures line { IfOk result (λ line. line.items ≡ row_at map.now row) }
    ensures wide { IfOk result (λ line. length line.items ≡ map.now.region.cols) }
{
    let mut line = vec![in alloc; Cell::null(); map.region().cols() as usize]?;
    map.copy_row(row, line.as_mut_slice());
    Ok(line)
}

// Returns the row below `row`, with nulls outside the map.
pub(crate) fn row_below_or_nulls(
    alloc: Global,
    map: &CellMap,
    row: u32,
) -> Result<Vec<Cell>, Memory>
    requires { row < map.now.region.rows }
    ensures line { IfOk result (λ line. (c : ℕ)
        → slice_index_or line.items c None ≡ cell_at map.now (row + 1) c) }
    ensures wide { IfOk result (λ line. length line.items ≡ map.now.region.cols) }
{
    let mut line = vec![in alloc; Cell::null(); map.region().cols() as usize]?;
    copy_row_below(map, row, line.as_mut_slice());
    Ok(line)
}

// Adds the cells of a tile in a row of the map to their patches.
pub(crate) fn add_row_of_map_to_patches(
    patches: &mut Vec<Patch>,
    lines: &RowsAroundRow<'_>,
    numbers: &CellMap,
    position: TilePosition,
    row: u32,
) -> Result<(), Memory>
    ghost tile: { TileOfMap }
    requires numbers { tile.numbers ≡ numbers.now }
    requires position { tile.position ≡ position }
    requires valid { AreValidPatchNumbers tile }
    requires at { AreRowsAroundRow tile.map row lines.now }
    requires wide { length lines.now.here.now ≡ tile.map.region.cols }
    requires read { AreMeasuresOfPatchesUpToCell tile
        (tile_rows_before tile.numbers tile.position.top row) 0 patches.old.items }
    ensures read { OnOk result (AreMeasuresOfPatchesUpToCell tile
        (tile_rows_before tile.numbers tile.position.top (row + 1)) 0 patches.new.items) }
    ensures cores { OnOk result (HaveSameCores patches.old.items patches.new.items) }
{
    if row < position.top {
        return Ok(());
    }
    let tile_row = row - position.top;
    if numbers.region().rows() <= tile_row {
        return Ok(());
    }
    add_row_of_runs_to_patches(
        patches,
        lines,
        numbers.stretches(tile_row),
        position,
        tile_row,
    )
}
