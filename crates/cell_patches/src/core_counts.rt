//! Counts the core cells of patches, `depth` rows after the cells were read.

ghost use Rattle.std.specs.Prelude.{◌≡◌, ℕ, pos, Some, None, slice_index_or, ◌+◌, ◌-◌, ◌<◌, ◌≤◌, ◌&&◌, length, OnOk, not, nat_le};
ghost use Rattle.std.specs.Option.{is_none};
ghost use Rattle.cell_core.specs.Grid.{cell_at};
ghost use Rattle.cell_patches.specs.parts.Passes.{patch_at_index_or_unread, AreCoresOfPatchesUpToCell, AreDiamondStepsOfRow, AreMeasuresOfPatchesUpToCell, AreValidPatchNumbers, CanCountCoresOfRow, HaveSameMeasuresExceptCores, IsCoreAddedToPatch, TileOfMap, tile_rows_before};

use crate::near_rows::cell_in_column_or_null;
use crate::patch::Patch;
use crate::read_rows::{is_null, patch_number_or_zero, row_of_map};
use crate::tile_position::TilePosition;
use cell_core::cell::Cell;
use cell_core::map::CellMap;
use cell_core::memory::Memory;
use std::alloc::Global;

// Adds a core cell to the patch with this number.
#[inline(always)]
fn add_core_to_numbered_patch(patches: &mut Vec<Patch>, number: u32)
    requires least { 1 ≤ number }
    requires listed { number ≤ length patches.old.items }
    requires room { (patch_at_index_or_unread patches.old.items (number - 1)).core + 1
        < 18446744073709551616 }
    ensures { IsCoreAddedToPatch patches.old.items patches.new.items (number - 1) }
{
    let place = number as usize - 1;
    patches[place].core += 1;
}

// Returns the steps at a column of a row, or 0 outside the map.
#[inline(always)]
fn diamond_steps_or_0_outside_map(steps: &[u32], col: usize) -> u32
    ensures value { result ≡ slice_index_or steps.now col 0 }
{
    match steps.get(col) {
        Some(count) => *count,
        None => 0,
    }
}

// Returns whether the cell `depth` rows above the cell at column `at` is a core cell.
#[inline(always)]
fn is_lowest_cell_below_core(below: &[Cell], steps: &[u32], at: usize, depth: u32) -> bool
    ensures { result ≡ (nat_le depth (slice_index_or steps.now at 0)
        && not (is_none (slice_index_or below.now at None))) }
{
    depth <= diamond_steps_or_0_outside_map(steps, at)
        && !is_null(cell_in_column_or_null(below, at))
}

// Counts the core cells in a row of a tile, given the row of the map `depth` rows below, and the steps of its cells.
#[inline(never)]
fn add_row_of_cells_to_cores(
    alloc: Global,
    patches: &mut Vec<Patch>,
    numbers: &CellMap,
    row: u32,
    below: &[Cell],
    steps: &[u32],
    left: u32,
    depth: u32,
) -> Result<(), Memory>
    ghost tile: { TileOfMap }
    requires numbers { tile.numbers ≡ numbers.now }
    requires ready { CanCountCoresOfRow tile left depth row below.now steps.now }
    requires listed { (c n : ℕ) → cell_at tile.numbers row c ≡ Some (pos n)
        → n ≤ length patches.old.items }
    requires counted { AreCoresOfPatchesUpToCell tile depth row 0 patches.old.items }
    ensures counted { OnOk result (AreCoresOfPatchesUpToCell tile depth (row + 1) 0
        patches.new.items) }
    ensures others { OnOk result (HaveSameMeasuresExceptCores patches.old.items
        patches.new.items) }
{
    let line = row_of_map(alloc, numbers, row)?;
    for col in 0..line.len() {
        if is_lowest_cell_below_core(below, steps, left as usize + col, depth) {
            add_core_to_numbered_patch(
                patches,
                patch_number_or_zero(cell_in_column_or_null(&line, col)),
            );
        }
    }
    Ok(())
}

// Counts the core cells of a tile that are `depth` rows above a row of the map, given the steps of the cells in this row.
pub(crate) fn add_row_of_map_to_cores(
    alloc: Global,
    patches: &mut Vec<Patch>,
    here: &[Cell],
    steps: &[u32],
    numbers: &CellMap,
    position: TilePosition,
    depth: u32,
    row: u32,
) -> Result<(), Memory>
    ghost tile: { TileOfMap }
    requires numbers { tile.numbers ≡ numbers.now }
    requires position { tile.position ≡ position }
    requires valid { AreValidPatchNumbers tile }
    requires row { row < tile.map.region.rows }
    requires here { (c : ℕ) → slice_index_or here.now c None ≡ cell_at tile.map row c }
    requires steps { AreDiamondStepsOfRow tile.map row steps.now }
    requires read { AreMeasuresOfPatchesUpToCell tile
        (tile_rows_before tile.numbers tile.position.top (row + 1)) 0 patches.old.items }
    requires depth { 0 < depth }
    requires counted { AreCoresOfPatchesUpToCell tile depth
        (tile_rows_before tile.numbers (tile.position.top + depth) row) 0 patches.old.items }
    ensures read { OnOk result (AreMeasuresOfPatchesUpToCell tile
        (tile_rows_before tile.numbers tile.position.top (row + 1)) 0 patches.new.items) }
    ensures counted { OnOk result (AreCoresOfPatchesUpToCell tile depth
        (tile_rows_before tile.numbers (tile.position.top + depth) (row + 1)) 0 patches.new.items) }
{
    let first = position.top.saturating_add(depth);
    if row < first {
        return Ok(());
    }
    let tile_row = row - first;
    if numbers.region().rows() <= tile_row {
        return Ok(());
    }
    add_row_of_cells_to_cores(
        alloc,
        patches,
        numbers,
        tile_row,
        here,
        steps,
        position.left,
        depth,
    )
}
