//! Evaluates expressions along a row for tests, and checks the row if memory runs out.

ghost use Rattle.std.specs.Prelude.{◌≡◌, ◌<◌, ◌≤◌, ℕ, length, slice_get, IfOk};
ghost use Rattle.cell_calc_language.specs.Reach.{map_place_limit_of_formula, rows_read_above_by_formula, rows_read_below_by_formula};
ghost use Rattle.cell_calc.specs.Window.{IsWindowAtRowWithReach};

use cell_calc::Bound;
use cell_calc::rows_of_values::eval_row;
use cell_calc::window::RowWindow;
use cell_core::cell::Cell;
use cell_core::map::CellMap;
use cell_core::memory::Memory;
use cell_core::shelf::Shelf;
use std::alloc::Global;

// Returns a window over a map, moved down to `row`.
fn moved(
    alloc: Global,
    map: &CellMap,
    above: u32,
    below: u32,
    row: u32,
) -> Result<RowWindow, Memory>
    requires above { above ≤ 255 }
    requires below { below ≤ 255 }
    requires row { row < map.now.region.rows }
    ensures { IfOk result (λ w. (w.centre ≡ row) × ((w.above ≡ above) × (w.below ≡ below))) }
{
    let mut window = RowWindow::new(alloc, map, above, below)?;
    for _ in 0..row {
        window.advance(map);
    }
    Ok(window)
}

// Returns a window at `row` for each map that the expression reads.
fn open(alloc: Global, bound: &Bound, shelf: &Shelf, row: u32) -> Result<Vec<RowWindow>, Memory>
    requires maps { map_place_limit_of_formula bound.now ≤ length shelf.now.maps }
    requires row { row < shelf.now.region.rows }
    ensures { IfOk result (λ windows. (i : ℕ) → i < map_place_limit_of_formula bound.now
        → IsWindowAtRowWithReach row (rows_read_above_by_formula i bound.now)
        (rows_read_below_by_formula i bound.now) (slice_get windows.items i)) }
{
    let mut windows = Vec::new(alloc);
    for i in 0..bound.top() {
        let (up, down) = bound.reach(i);
        windows.push(moved(alloc, shelf.map(i), up, down, row)?)?;
    }
    Ok(windows)
}

/// Writes the values along a row into a slice, and tries again if memory runs out. Returns `None` if memory did not run
/// out, otherwise whether the failed call left the slice unchanged.
///
/// # Errors
///
/// [`Memory`] if memory runs out twice, or for a window.
pub fn values_along(
    alloc: Global,
    bound: &Bound,
    shelf: &Shelf,
    row: u32,
    cells: &mut [Cell],
) -> Result<Option<bool>, Memory>
    requires maps { map_place_limit_of_formula bound.now ≤ length shelf.now.maps }
    requires row { row < shelf.now.region.rows }
    requires width { length cells.old ≡ shelf.now.region.cols }
{
    let region = shelf.region();
    let windows = open(alloc, bound, shelf, row)?;
    let before = Vec::from_slice(alloc, cells)?;
    if eval_row(alloc, bound, &region, row, windows.as_slice(), cells).is_ok() {
        return Ok(None);
    }
    let is_unchanged = before.iter().eq(cells.iter());
    eval_row(alloc, bound, &region, row, windows.as_slice(), cells)?;
    Ok(Some(is_unchanged))
}
