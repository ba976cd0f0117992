//! Makes the border of a tile from its map and its clump numbers.

ghost use Rattle.std.specs.Prelude.{ℕ, ◌≡◌, ◌<◌, None, IfOk, length, slice_index_or};
ghost use Rattle.cell_core.specs.Grid.{cell_at};
ghost use Rattle.cell_clumps.specs.declared.clump.Joining.{Joining};
ghost use Rattle.cell_clumps.specs.parts.CellPlaces.{position_at_row_and_column};
ghost use Rattle.cell_clumps.specs.Clumps.{IsClumpMapOf};
ghost use Rattle.cell_join_tiles.specs.SeamLines.{TileHasSide};
ghost use Rattle.cell_join_tiles.specs.JoinedBorders.{TileHasBorder};
ghost use Rattle.cell_join_tiles.specs.Values.{TileBorderHasSize, value_of_tile_border};

use crate::begun::{begun_clump_counts_by_row, cells_of_map_row};
use crate::border::{TileBorder, TileSide};
use cell_core::cell::Cell;
use cell_core::map::CellMap;
use cell_core::memory::Memory;
use std::alloc::Global;

// Returns the cells of a column.
fn cells_of_map_column(alloc: Global, map: &CellMap, col: u32) -> Result<Vec<Cell>, Memory>
    requires { col < map.now.region.cols }
    ensures long { IfOk result (λ cells. length cells.items ≡ map.now.region.rows) }
    ensures each { IfOk result (λ cells. (row : ℕ) → row < map.now.region.rows
        → slice_index_or cells.items row None ≡ cell_at map.now row col) }
{
    let rows = map.region().rows();
    let mut cells = Vec::with_capacity(alloc, rows as usize)?;
    for row in 0..rows {
        cells.push(map.cell(row, col))?;
    }
    Ok(cells)
}

// Returns the cells of a row and their numbers.
fn side_along_row(
    alloc: Global,
    map: &CellMap,
    numbers: &CellMap,
    row: u32,
) -> Result<TileSide, Memory>
    requires row_in_range { row < map.now.region.rows }
    requires region { numbers.now.region ≡ map.now.region }
    ensures side { IfOk result (λ side. TileHasSide map.now numbers.now map.now.region.cols
        (position_at_row_and_column row) side.cells.items side.numbers.items) }
    ensures numbers { IfOk result (λ side. length side.numbers.items ≡ map.now.region.cols) }
{
    Ok(TileSide {
        cells: cells_of_map_row(alloc, map, row)?,
        numbers: cells_of_map_row(alloc, numbers, row)?,
    })
}

// Returns the cells of a column and their numbers.
fn side_along_column(
    alloc: Global,
    map: &CellMap,
    numbers: &CellMap,
    col: u32,
) -> Result<TileSide, Memory>
    requires col_in_range { col < map.now.region.cols }
    requires region { numbers.now.region ≡ map.now.region }
    ensures side { IfOk result (λ side. TileHasSide map.now numbers.now map.now.region.rows
        (λ row. position_at_row_and_column row col) side.cells.items side.numbers.items) }
    ensures numbers { IfOk result (λ side. length side.numbers.items ≡ map.now.region.rows) }
{
    Ok(TileSide {
        cells: cells_of_map_column(alloc, map, col)?,
        numbers: cells_of_map_column(alloc, numbers, col)?,
    })
}

/// Returns the border of a tile, given its map and the numbers of its clumps.
///
/// # Errors
///
/// Returns [`Memory`] if memory runs out.
pub fn border_of_tile(alloc: Global, map: &CellMap, numbers: &CellMap) -> Result<TileBorder, Memory>
    requires region { numbers.now.region ≡ map.now.region }
    ensures border { IfOk result (λ border. (joining : Joining)
        → IsClumpMapOf joining map.now numbers.now
        → TileHasBorder joining map.now.region.rows map.now.region.cols map.now numbers.now
        (value_of_tile_border border)) }
    ensures size { IfOk result (λ border. TileBorderHasSize map.now.region.rows
        map.now.region.cols (value_of_tile_border border)) }
{
    let region = map.region();
    Ok(TileBorder {
        first: side_along_row(alloc, map, numbers, 0)?,
        last: side_along_row(alloc, map, numbers, region.rows() - 1)?,
        left: side_along_column(alloc, map, numbers, 0)?,
        right: side_along_column(alloc, map, numbers, region.cols() - 1)?,
        begun: begun_clump_counts_by_row(alloc, numbers)?,
    })
}
