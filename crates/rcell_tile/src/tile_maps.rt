//! Maps without their halo, and maps with null in their halo.

ghost use Rattle.std.specs.Prelude.{◌≡◌, ◌≤◌, ◌<◌, ◌+◌, ◌++◌, [], ◌∷◌, length, map, take, drop, replicate, IfOk, OnOk};
ghost use Rattle.cell_core.specs.Grid.{row_at};
ghost use Rattle.rcell_tile.specs.TileMaps.{IsPlaceOfMaps, halo_columns_left, tile_region, tile_map, row_with_null_halo, map_with_null_halo};

use crate::tile_place::TilePlace;
use cell_core::cell::Cell;
use cell_core::map::{CellMap, MapBuilder};
use cell_core::memory::Memory;
use cell_core::region::Region;
use std::alloc::Global;

/// Returns the region of a tile without its halo, given the region of its maps.
pub fn tile_region(place: &TilePlace, region: Region) -> Region
    requires { IsPlaceOfMaps place.now region }
    ensures { result ≡ tile_region place.now region }
{
    match Region::new(
        region.north(),
        region.south(),
        region.east(),
        region.west(),
        place.tile_rows(),
        place.tile_cols(),
    ) {
        Ok(region) => region,
        Err(_) => unreachable!(),
    }
}

// Appends the tile's part of a row. Bytes stay bytes.
fn push_tile_part_of_row(
    builder: &mut MapBuilder,
    place: &TilePlace,
    map: &CellMap,
    row: u32,
    cells: &mut [Cell],
) -> Result<(), Memory>
    requires place { IsPlaceOfMaps place.now map.now.region }
    requires row { row < map.now.region.rows }
    requires width { length cells.old ≡ map.now.region.cols }
    requires region { builder.old.region ≡ tile_region place.now map.now.region }
    requires room { length builder.old.rows < builder.old.region.rows }
    ensures ok { OnOk result
        (builder.new ≡ record builder.old {
          rows = builder.old.rows ++ take place.now.tile.cols
              (drop (halo_columns_left place.now) (row_at map.now row)) ∷ [];
        }) }
    ensures width { length cells.new ≡ map.now.region.cols }
{
    let from = place.columns_left() as usize;
    let to = from + place.tile_cols() as usize;
    if let Some(bytes) = map.bytes(row) {
        return builder.push_row_of_bytes(&bytes[from..to]);
    }
    map.copy_row(row, cells);
    builder.push_row(&cells[from..to])
}

/// Returns a map without its halo and its labels.
///
/// # Errors
///
/// Returns [`Memory`] if memory runs out.
pub fn tile_map(alloc: Global, place: &TilePlace, map: &CellMap) -> Result<CellMap, Memory>
    requires { IsPlaceOfMaps place.now map.now.region }
    ensures { IfOk result (λ made. made ≡ tile_map place.now map.now) }
{
    let region = map.region();
    let mut builder = MapBuilder::new(alloc, tile_region(place, region));
    let mut cells = Vec::from_elem(alloc, Cell::null(), region.cols() as usize)?;
    let above = place.rows_above();
    for row in 0..place.tile_rows() {
        push_tile_part_of_row(&mut builder, place, map, above + row, cells.as_mut_slice())?;
    }
    Ok(builder.finish())
}

// Returns a row of the tile between null cells in its halo.
fn row_with_null_halo(alloc: Global, place: &TilePlace, row: &[Cell]) -> Result<Vec<Cell>, Memory>
    requires { length row.now ≡ place.now.tile.cols }
    ensures { IfOk result (λ cells. cells.items ≡ row_with_null_halo place.now row.now) }
{
    let mut cells = Vec::with_capacity(alloc, place.outer_cols() as usize)?;
    cells.resize(place.columns_left() as usize, Cell::null())?;
    cells.extend_from_slice(row)?;
    cells.resize(place.outer_cols() as usize, Cell::null())?;
    Ok(cells)
}

// Appends null rows.
fn push_null_rows(builder: &mut MapBuilder, count: u32, nulls: &[Cell]) -> Result<(), Memory>
    requires width { length nulls.now ≡ builder.old.region.cols }
    requires room { length builder.old.rows + count ≤ builder.old.region.rows }
    ensures { OnOk result
        (builder.new ≡ record builder.old { rows = builder.old.rows ++ replicate count nulls.now }) }
{
    for _ in 0..count {
        builder.push_row(nulls)?;
    }
    Ok(())
}

// Appends the rows of a map of the tile, between null cells in its halo.
fn push_rows_with_null_halo(
    alloc: Global,
    builder: &mut MapBuilder,
    place: &TilePlace,
    tile: &CellMap,
) -> Result<(), Memory>
    requires width { builder.old.region.cols ≡ place.now.outer.cols }
    requires room { length builder.old.rows + place.now.tile.rows ≤ builder.old.region.rows }
    requires rows { tile.now.region.rows ≡ place.now.tile.rows }
    requires cols { tile.now.region.cols ≡ place.now.tile.cols }
    ensures { OnOk result
        (builder.new ≡ record builder.old {
          rows = builder.old.rows ++ map (row_with_null_halo place.now)
              tile.now.rows;
        }) }
{
    let _region = tile.region();
    let mut cells = Vec::from_elem(alloc, Cell::null(), place.tile_cols() as usize)?;
    for row in 0..place.tile_rows() {
        tile.copy_row(row, cells.as_mut_slice());
        let wide = row_with_null_halo(alloc, place, cells.as_slice())?;
        builder.push_row(wide.as_slice())?;
    }
    Ok(())
}

/// Returns a map of a tile with null in its halo, without labels. The region is the region of the tile's maps.
///
/// # Errors
///
/// Returns [`Memory`] if memory runs out.
pub fn map_with_null_halo(
    alloc: Global,
    place: &TilePlace,
    region: Region,
    map: &CellMap,
) -> Result<CellMap, Memory>
    requires place { IsPlaceOfMaps place.now region }
    requires tile { map.now.region ≡ tile_region place.now region }
    ensures { IfOk result (λ made. made ≡ map_with_null_halo place.now region map.now) }
{
    let _tile = map.region();
    let mut builder = MapBuilder::new(alloc, region);
    let nulls = Vec::from_elem(alloc, Cell::null(), place.outer_cols() as usize)?;
    push_null_rows(&mut builder, place.rows_above(), nulls.as_slice())?;
    push_rows_with_null_halo(alloc, &mut builder, place, map)?;
    push_null_rows(&mut builder, place.rows_below(), nulls.as_slice())?;
    Ok(builder.finish())
}
