//! Windows of rows, which move down a map.

ghost use Rattle.std.specs.Prelude.{◌≡◌, ◌≤◌, ◌<◌, ◌+◌, ◌+ℤ◌, ℤ, pos, length, None, Some, IfOk, IfSome, IfNone, ◌<ℤ◌};
ghost use Rattle.cell_core.specs.Grid.{Grid};
ghost use Rattle.cell_calc_language.specs.Offsets.{row_of_map_or_empty, cell_of_map_or_null, item_at_integer_or_default};
ghost use Rattle.cell_calc.specs.Window.{WindowHoldsMapRows, WindowReachesOffset};
ghost use Rattle.cell_calc.specs.CommonStretches.{centre_row};
ghost use Rattle.cell_calc.specs.WindowsOver.{row_below_window_centre};

use crate::window_rows::WindowRows;
use cell_core::cell::Cell;
use cell_core::map::CellMap;
use cell_core::memory::Memory;
use std::alloc::Global;
use std::marker::Model;

/// Holds the rows of a map around a centre row, which moves down.
#[derive(Drop)]
pub struct RowWindow {
    above: u32,
    below: u32,
    centre: u32,
    rows: u32,
    held: WindowRows,
}

impl Model for RowWindow {
    ghost use Rattle.std.specs.Prelude.{length, min, ◌≡◌, ◌≤◌, ◌<◌, ◌+◌};
    ghost use Rattle.cell_calc.specs.Window.{RowWindowValue};
    ghost use Rattle.cell_calc.specs.parts.WindowRows.{window_encoding};

    ghost Value = { RowWindowValue };

    ghost coded = { window_encoding };

    ghost view = { λ w. record { above = w.above; below = w.below; centre = w.centre; rows = w.rows; cols = w.held.cols; held = w.held.rows } };

    ghost invariant = { λ w. record {
      above : w.above ≤ 255;
      below : w.below ≤ 255;
      centre : w.centre < w.rows;
      count : length w.held.rows + w.held.free ≡ min (w.above + w.below + 1) w.rows;
    } };
}

impl RowWindow {
    /// Returns a window at the first row of a map. Allocates all memory that the window will need.
    ///
    /// # Errors
    ///
    /// [`Memory`] if memory runs out.
    pub fn new(alloc: Global, map: &CellMap, above: u32, below: u32) -> Result<RowWindow, Memory>
        requires above { above ≤ 255 }
        requires below { below ≤ 255 }
        ensures window { IfOk result (λ w. WindowHoldsMapRows w map.now) }
        ensures reach { IfOk result (λ w. (w.above ≡ above) × (w.below ≡ below)) }
        ensures centre { IfOk result (λ w. w.centre ≡ 0) }
    {
        let region = map.region();
        // If the map has fewer rows than the window, memory for the map's rows is enough.
        let capacity = (above + below + 1).min(region.rows());
        let mut held = WindowRows::new(alloc, capacity as usize, region.cols())?;
        for r in 0..below + 1 {
            held.take_in(map, r as u64);
        }
        Ok(RowWindow {
            above,
            below,
            centre: 0,
            rows: region.rows(),
            held,
        })
    }

    /// Returns the centre row, counted from 0.
    pub fn centre(&self) -> u32
        ensures value { result ≡ self.now.centre }
        ensures within { self.now.centre < self.now.rows }
    {
        self.centre
    }

    /// Returns the maximum number of rows that the window holds.
    pub fn capacity(&self) -> usize
        ensures value { result ≡ self.now.above + self.now.below + 1 }
        ensures held { length self.now.held ≤ result }
    {
        self.above as usize + self.below as usize + 1
    }

    /// Moves the centre down by one row of the same map. Does not allocate.
    pub fn advance(&mut self, map: &CellMap)
        requires window { WindowHoldsMapRows self.old map.now }
        requires left { self.old.centre + 1 < self.old.rows }
        ensures window { WindowHoldsMapRows self.new map.now }
        ensures reach { (self.new.above ≡ self.old.above) × (self.new.below ≡ self.old.below) }
        ensures centre { self.new.centre ≡ self.old.centre + 1 }
    {
        let _region = map.region();
        let next = self.centre as u64 + self.below as u64 + 1;
        self.held.release(self.above, self.centre);
        self.held.take_in(map, next);
        self.centre += 1;
    }

    /// Returns the map's cell `dr` rows below the centre in column `c`, or null outside the region.
    pub fn cell(&self, dr: i32, c: i64) -> Cell
        requires { WindowReachesOffset self.now dr }
        ensures { (m : Grid) → WindowHoldsMapRows self.now m
            → result ≡ cell_of_map_or_null m (pos self.now.centre +ℤ dr) c }
    {
        cell_or_null_outside_row(self.row(dr), c)
    }

    /// Returns a window over a single row of cells.
    ///
    /// # Errors
    ///
    /// [`Memory`] if memory runs out.
    pub fn of_row(alloc: Global, cells: Vec<Cell>) -> Result<RowWindow, Memory>
        requires { length cells.items ≤ 65535 }
        ensures { IfOk result (λ w. centre_row w ≡ cells.items) }
    {
        let held = WindowRows::of_row(alloc, cells)?;
        Ok(RowWindow {
            above: 0,
            below: 0,
            centre: 0,
            rows: 1,
            held,
        })
    }

    /// Returns the cells of the centre row.
    pub fn centre_row(&self) -> &[Cell]
        ensures { result.now ≡ centre_row self.now }
    {
        self.row(0)
    }

    /// Returns the cells of the row `down` rows below the centre, or an empty slice outside the map.
    pub fn row(&self, down: i32) -> &[Cell]
        requires { WindowReachesOffset self.now down }
        ensures held { result.now ≡ row_below_window_centre down (Some self.now) }
        ensures map { (m : Grid) → WindowHoldsMapRows self.now m
            → result.now ≡ row_of_map_or_empty m (pos self.now.centre +ℤ down) }
    {
        let first = self.centre.saturating_sub(self.above);
        match place_of_row_below_centre(self.centre, first, down) {
            Some(i) => self.held.row(i),
            None => &[],
        }
    }
}

// Returns the index of the row `down` rows below the centre, counted from row `first`.
fn place_of_row_below_centre(centre: u32, first: u32, down: i32) -> Option<usize>
    ensures some { IfSome result (λ i. pos (first + i) ≡ pos centre +ℤ down) }
    ensures none { IfNone result ((pos centre +ℤ down) <ℤ pos first) }
{
    let wanted = centre as i64 + down as i64;
    let least = first as i64;
    if wanted < least {
        return None;
    }
    Some((wanted - least) as usize)
}

fn cell_or_null_outside_row(cells: &[Cell], c: i64) -> Cell
    ensures { result ≡ item_at_integer_or_default None cells.now c }
{
    if c < 0 {
        return Cell::null();
    }
    match cells.get(c as usize) {
        Some(cell) => *cell,
        None => Cell::null(),
    }
}
