//! Evaluates expressions over maps.

ghost use Rattle.std.specs.Prelude.{◌≡◌, ◌<◌, ◌≤◌, ◌+◌, length, slice_get, Some, IfOk};
ghost use Rattle.cell_core_values.specs.Region.{RegionValue};
ghost use Rattle.cell_calc_language.specs.Reach.{map_place_limit_of_formula};
ghost use Rattle.rcell.specs.Making.{IsMapOfExpressionValues};
ghost use Rattle.rcell.specs.parts.WindowsSet.{AreMapPlaces, MapsHaveRegion, AreWindowsOfFirstMapsAtRow, maps_at_places};
ghost use Rattle.cell_calc_categories.specs.MapValues.{MapHasExpressionValues};

use cell_calc::rows_of_values::eval_row;
use cell_calc::window::RowWindow;
use cell_calc_categories::map_by_category::expression_map_by_category;
use cell_calc_language::bound::Bound;
use cell_core::cell::Cell;
use cell_core::map::{CellMap, MapBuilder};
use cell_core::memory::Memory;
use cell_core::region::Region;
use cell_core::shelf::Shelf;
use std::alloc::Global;

// Returns the map that the i-th place refers to.
fn map_at_listed_place<'a>(maps: &'a [CellMap], places: &[usize], i: usize) -> &'a CellMap
    requires place { i < length places.now }
    requires within { AreMapPlaces maps.now places.now }
    ensures value { slice_get (maps_at_places places.now maps.now) i ≡ Some result.now }
    ensures region { (region : RegionValue) → MapsHaveRegion region maps.now
        → result.now.region ≡ region }
{
    &maps[places[i]]
}

// Opens a window at the first row of each map that is read.
fn open_row_windows(
    alloc: Global,
    bound: &Bound,
    places: &[usize],
    maps: &[CellMap],
) -> Result<Vec<RowWindow>, Memory>
    requires places { map_place_limit_of_formula bound.now ≡ length places.now }
    requires within { AreMapPlaces maps.now places.now }
    ensures set { IfOk result (λ windows. AreWindowsOfFirstMapsAtRow bound.now
        (length places.now) 0 windows.items
        (maps_at_places places.now maps.now)) }
    ensures count { IfOk result (λ windows. length windows.items ≡ length places.now) }
{
    let mut windows = Vec::new(alloc);
    for i in 0..places.len() {
        let (up, down) = bound.reach(i);
        windows.push(RowWindow::new(alloc, map_at_listed_place(maps, places, i), up, down)?)?;
    }
    Ok(windows)
}

// Moves each window down by one row, if another row follows.
fn advance_row_windows(
    bound: &Bound,
    places: &[usize],
    maps: &[CellMap],
    region: Region,
    row: u32,
    windows: &mut [RowWindow],
)
    requires count { length windows.old ≡ length places.now }
    requires within { AreMapPlaces maps.now places.now }
    requires regions { MapsHaveRegion region maps.now }
    requires set { AreWindowsOfFirstMapsAtRow bound.now (length windows.old) row windows.old
        (maps_at_places places.now maps.now) }
    ensures { row + 1 < region.rows → AreWindowsOfFirstMapsAtRow bound.now (length windows.old)
        (row + 1) windows.new
        (maps_at_places places.now maps.now) }
{
    let _ = bound;
    if row as u64 + 1 >= region.rows() as u64 {
        return;
    }
    for i in 0..windows.len() {
        windows[i].advance(map_at_listed_place(maps, places, i));
    }
}

// Returns the map of an expression's values over the maps at these places, without labels.
fn evaluate_over_maps(
    alloc: Global,
    bound: &Bound,
    places: &[usize],
    maps: &[CellMap],
    region: Region,
) -> Result<CellMap, Memory>
    requires places { map_place_limit_of_formula bound.now ≡ length places.now }
    requires within { AreMapPlaces maps.now places.now }
    requires regions { MapsHaveRegion region maps.now }
    ensures { IfOk result (MapHasExpressionValues bound.now region
        (maps_at_places places.now maps.now)) }
{
    let mut windows = open_row_windows(alloc, bound, places, maps)?;
    let mut builder = MapBuilder::new(alloc, region);
    let mut cells = Vec::from_elem(alloc, Cell::null(), region.cols() as usize)?;
    for row in 0..region.rows() {
        eval_row(
            alloc,
            bound,
            &region,
            row,
            windows.as_slice(),
            cells.as_mut_slice(),
        )?;
        builder.push_row(cells.as_slice())?;
        advance_row_windows(bound, places, maps, region, row, windows.as_mut_slice());
    }
    Ok(builder.finish())
}

// Does the work of `evaluate_over_maps`, with a table of categories if that is faster.
fn evaluate_over_maps_fast(
    alloc: Global,
    bound: &Bound,
    places: &[usize],
    maps: &[CellMap],
    region: Region,
) -> Result<CellMap, Memory>
    requires places { map_place_limit_of_formula bound.now ≡ length places.now }
    requires within { AreMapPlaces maps.now places.now }
    requires regions { MapsHaveRegion region maps.now }
    ensures { IfOk result (MapHasExpressionValues bound.now region
        (maps_at_places places.now maps.now)) }
{
    if !places.is_empty() {
        if let Some(made) = expression_map_by_category(
            alloc,
            bound,
            map_at_listed_place(maps, places, 0),
        )? {
            return Ok(made);
        }
    }
    evaluate_over_maps(alloc, bound, places, maps, region)
}

/// Returns the map of an expression's values over a shelf's maps, without labels.
///
/// # Errors
///
/// Returns [`Memory`] if memory runs out.
pub fn evaluate(alloc: Global, bound: &Bound, shelf: &Shelf) -> Result<CellMap, Memory>
    requires { map_place_limit_of_formula bound.now ≤ length shelf.now.maps }
    ensures { IfOk result (IsMapOfExpressionValues bound.now shelf.now) }
{
    // Only maps that are read get windows.
    let (compact, places) = bound.renumbered_over_read_maps(alloc)?;
    let (maps, region) = (shelf.maps(), shelf.region());
    let map = evaluate_over_maps_fast(alloc, &compact, places.as_slice(), maps, region)?;
    // The proof needs the region of the map.
    let _map_region = map.region();
    Ok(map)
}
