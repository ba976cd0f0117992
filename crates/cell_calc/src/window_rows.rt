//! Stores the rows of a window in a ring, and reuses rows that left it.

ghost use Rattle.std.specs.Prelude.{◌≡◌, ◌≤◌, ◌<◌, ◌+◌, ◌++◌, [], ◌∷◌, length, take, drop, nat_le, if◌then◌else◌, slice_index_or, IfOk, All};
ghost use Rattle.cell_core.specs.Grid.{row_at};
ghost use Rattle.circular_buffer.specs.Buffer.{buffer};

use cell_core::cell::Cell;
use cell_core::map::CellMap;
use cell_core::memory::Memory;
use circular_buffer::HeapCircularBuffer;
use std::alloc::Global;
use std::marker::Model;

/// A ring of rows of equal width, and a second ring of the same size for free rows.
#[derive(Drop)]
pub(crate) struct WindowRows {
    cols: u32,
    rows: HeapCircularBuffer<Vec<Cell>>,
    waiting: HeapCircularBuffer<Vec<Cell>>,
}

impl Model for WindowRows {
    ghost use Rattle.std.specs.Prelude.{map, length, All, ◌≡◌, ◌≤◌, ◌<◌, ◌+◌};
    ghost use Rattle.cell_calc.specs.parts.WindowRows.{WindowRowsValue, window_rows_encoding};

    ghost Value = { WindowRowsValue };

    ghost coded = { window_rows_encoding };

    ghost view = { λ h. record { cols = h.cols; rows = map (λ row. row.items) h.rows.items; free = length h.waiting.items } };

    ghost invariant = { λ h. record {
      width : All (λ row. length row.items ≡ h.cols) h.rows.items;
      width_waiting : All (λ row. length row.items ≡ h.cols) h.waiting.items;
      room : length h.rows.items + length h.waiting.items ≤ h.rows.capacity;
      room_waiting : length h.rows.items + length h.waiting.items ≤ h.waiting.capacity;
    } };
}

impl WindowRows {
    /// Returns `count` free rows.
    pub(crate) fn new(alloc: Global, count: usize, cols: u32) -> Result<WindowRows, Memory>
        ensures { IfOk result (λ h. h ≡ record { cols = cols; rows = []; free = count }) }
    {
        let rows = HeapCircularBuffer::with_capacity(alloc, count)?;
        let mut waiting = HeapCircularBuffer::with_capacity(alloc, count)?;
        for _ in 0..count {
            append_row_to_ring(
                &mut waiting,
                Vec::from_elem(alloc, Cell::null(), cols as usize)?,
            );
        }
        Ok(WindowRows {
            cols,
            rows,
            waiting,
        })
    }

    /// Returns a ring with one row, and no free row.
    pub(crate) fn of_row(alloc: Global, row: Vec<Cell>) -> Result<WindowRows, Memory>
        requires { length row.items ≤ 65535 }
        ensures rows { IfOk result (λ h. h.rows ≡ row.items ∷ []) }
        ensures free { IfOk result (λ h. h.free ≡ 0) }
    {
        let cols = row.len() as u32;
        let mut rows = HeapCircularBuffer::with_capacity(alloc, 1)?;
        let waiting = HeapCircularBuffer::with_capacity(alloc, 1)?;
        append_row_to_ring(&mut rows, row);
        Ok(WindowRows {
            cols,
            rows,
            waiting,
        })
    }

    /// Returns the row at index `i`, or an empty slice past the last row.
    pub(crate) fn row(&self, i: usize) -> &[Cell]
        ensures { result.now ≡ slice_index_or self.now.rows i [] }
    {
        match self.rows.get(i) {
            Some(row) => row.as_slice(),
            None => &[],
        }
    }

    /// Frees the first row if at least `above` rows are above the centre.
    pub(crate) fn release(&mut self, above: u32, centre: u32)
        ensures rows { self.new.rows
            ≡ (if nat_le above centre then drop 1 self.old.rows else self.old.rows) }
        ensures free { length self.new.rows + self.new.free ≡ length self.old.rows + self.old.free }
        ensures cols { self.new.cols ≡ self.old.cols }
    {
        if above <= centre {
            if let Some(row) = self.rows.pop_front() {
                append_row_to_ring(&mut self.waiting, row);
            }
        }
    }

    /// Appends a row of a map, if the map has that row.
    pub(crate) fn take_in(&mut self, map: &CellMap, row: u64)
        requires width { self.old.cols ≡ map.now.region.cols }
        requires free { row < map.now.region.rows → 0 < self.old.free }
        ensures rows { self.new.rows ≡ self.old.rows ++ take 1 (drop row map.now.rows) }
        ensures free { length self.new.rows + self.new.free ≡ length self.old.rows + self.old.free }
        ensures cols { self.new.cols ≡ self.old.cols }
    {
        if row < map.region().rows() as u64 {
            if let Some(cells) = self.waiting.pop_front() {
                append_row_to_ring(
                    &mut self.rows,
                    cells_filled_from_map_row(map, row as u32, cells),
                );
            }
        }
    }
}

// Appends a row to a ring that has room.
fn append_row_to_ring(ring: &mut HeapCircularBuffer<Vec<Cell>>, row: Vec<Cell>)
    requires { length ring.old.items < ring.old.capacity }
    ensures { ring.new ≡ buffer (ring.old.items ++ row ∷ []) ring.old.capacity }
{
    ring.push_back(row);
}

// Copies a row of a map into `cells`, and returns `cells`.
fn cells_filled_from_map_row(map: &CellMap, row: u32, mut cells: Vec<Cell>) -> Vec<Cell>
    requires row_in_range { row < map.now.region.rows }
    requires width { length cells.items ≡ map.now.region.cols }
    ensures { result.items ≡ row_at map.now row }
{
    map.copy_row(row, cells.as_mut_slice());
    cells
}
