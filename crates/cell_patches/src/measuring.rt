//! Measures the patches of a map, or of a tile of a map.

ghost use Rattle.std.specs.Prelude.{◌≡◌, ℕ, None, slice_index_or, ◌+◌, ◌<◌, length, IfOk};
ghost use Rattle.cell_clumps.specs.Clumps.{IsClumpMapOf};
ghost use Rattle.cell_patches.specs.Patches.{AreMeasuresOfAllPatches};
ghost use Rattle.cell_patches.specs.TilePatches.{AreMeasuresOfAllPatchesInTile, IsClumpMapOfTile, IsTileInsideMap};
ghost use Rattle.cell_patches.specs.parts.Passes.{AreDiamondStepsOfRow, AreValidPatchNumbers, CanMeasurePatchesFromRow, IsMeasuringStateBeforeRow, TileOfMap};

use crate::core_counts::add_row_of_map_to_cores;
use crate::core_steps::diamond_steps_of_row;
use crate::near_rows::RowsAroundRow;
use crate::patch::Patch;
use crate::read_rows::{add_row_of_map_to_patches, row_below_or_nulls, row_of_map};
use crate::tile_position::TilePosition;
use cell_clumps::clump::Joining;
use cell_clumps::law::clump_numbers_have_no_gaps;
use cell_core::map::CellMap;
use cell_core::memory::Memory;
use std::alloc::Global;

// Adds the cells of a row of the map to their patches, and counts the core cells `depth` rows above. Returns the steps
// of the cells, given the steps of the two rows above.
fn measure_patches_in_row(
    alloc: Global,
    patches: &mut Vec<Patch>,
    lines: &RowsAroundRow<'_>,
    above: &[u32],
    second_above: &[u32],
    numbers: &CellMap,
    position: TilePosition,
    depth: u32,
    row: u32,
) -> Result<Vec<u32>, Memory>
    ghost tile: { TileOfMap }
    requires numbers { tile.numbers ≡ numbers.now }
    requires position { tile.position ≡ position }
    requires ready { CanMeasurePatchesFromRow tile row lines.now above.now second_above.now }
    requires above { length above.now ≡ length lines.now.above.now }
    requires second_above { length second_above.now ≡ length lines.now.second_above.now }
    requires depth { 0 < depth }
    requires state { IsMeasuringStateBeforeRow tile depth row patches.old.items }
    ensures steps { IfOk result (λ steps. AreDiamondStepsOfRow tile.map row steps.items) }
    ensures wide { IfOk result (λ steps. length steps.items ≡ length lines.now.here.now) }
    ensures state { IfOk result (λ steps.
        IsMeasuringStateBeforeRow tile depth (row + 1) patches.new.items) }
{
    let steps = diamond_steps_of_row(alloc, lines, above, second_above)?;
    add_row_of_map_to_patches(patches, lines, numbers, position, row)?;
    add_row_of_map_to_cores(
        alloc, patches, lines.here, &steps, numbers, position, depth, row,
    )?;
    Ok(steps)
}

// Measures the patches in all rows of the map.
fn measure_patches_in_all_rows(
    alloc: Global,
    map: &CellMap,
    position: TilePosition,
    numbers: &CellMap,
    depth: u32,
) -> Result<Vec<Patch>, Memory>
    ghost tile: { TileOfMap }
    requires map { tile.map ≡ map.now }
    requires numbers { tile.numbers ≡ numbers.now }
    requires position { tile.position ≡ position }
    requires valid { AreValidPatchNumbers tile }
    requires depth { 0 < depth }
    ensures { IfOk result (λ patches. IsMeasuringStateBeforeRow tile depth tile.map.region.rows
        patches.items) }
{
    let rows = map.region().rows();
    let mut patches = Vec::new(alloc);
    let mut steps_above = Vec::new(alloc);
    let mut steps_second_above = Vec::new(alloc);
    let mut second_above = Vec::new(alloc);
    let mut above = Vec::new(alloc);
    let mut here = row_of_map(alloc, map, 0)?;
    for row in 0..rows {
        let below = row_below_or_nulls(alloc, map, row)?;
        let lines = RowsAroundRow {
            second_above: &second_above,
            above: &above,
            here: &here,
            below: &below,
        };
        let steps = measure_patches_in_row(
            alloc,
            &mut patches,
            &lines,
            &steps_above,
            &steps_second_above,
            numbers,
            position,
            depth,
            row,
        )?;
        steps_second_above = steps_above;
        steps_above = steps;
        second_above = above;
        above = here;
        here = below;
    }
    Ok(patches)
}

/// Returns the measures in the full map of all patches of a tile, in the order of their numbers, which start at 1.
/// `map` contains the tile, and `numbers` is the map of the tile's patch numbers. Sides and core cells are as in the
/// full map if `map` has at least `depth` rows and columns around the tile, unless the full map ends there.
///
/// In addition to the result, it needs memory for a few rows.
///
/// # Errors
///
/// [`Memory`] if memory runs out.
pub fn patch_measures_in_tile(
    alloc: Global,
    map: &CellMap,
    position: TilePosition,
    numbers: &CellMap,
    joining: Joining,
    depth: u32,
) -> Result<Vec<Patch>, Memory>
    requires clumping { IsClumpMapOfTile joining map.now position numbers.now }
    requires inside { IsTileInsideMap map.now.region position numbers.now.region }
    requires depth { 0 < depth }
    ensures { IfOk result (λ patches. AreMeasuresOfAllPatchesInTile map.now position numbers.now
        depth patches.items) }
{
    clump_numbers_have_no_gaps();
    let rows_of_tile = numbers.region().rows();
    let rows = map.region().rows();
    prove!(rows_of_tile <= rows);
    measure_patches_in_all_rows(alloc, map, position, numbers, depth)
}

/// Returns the measures of all patches, in the order of their numbers, which start at 1. `numbers` is the map of these
/// numbers, as `clump_with` returns it. The core of a patch is its cells that are at least `depth` steps inside it.
///
/// In addition to the result, it needs memory for a few rows.
///
/// # Errors
///
/// [`Memory`] if memory runs out.
pub fn patch_measures(
    alloc: Global,
    map: &CellMap,
    numbers: &CellMap,
    joining: Joining,
    depth: u32,
) -> Result<Vec<Patch>, Memory>
    requires clumping { IsClumpMapOf joining map.now numbers.now }
    requires depth { 0 < depth }
    ensures { IfOk result (λ patches. AreMeasuresOfAllPatches map.now numbers.now depth
        patches.items) }
{
    let rows = numbers.region().rows();
    let cols = numbers.region().cols();
    prove!(rows < 65536 && cols < 65536);
    let position = TilePosition {
        top: 0,
        left: 0,
        first_row: 0,
        first_col: 0,
    };
    patch_measures_in_tile(alloc, map, position, numbers, joining, depth)
}
