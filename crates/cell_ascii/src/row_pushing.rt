//! Appends rows that were read to a map.

ghost use Rattle.std.specs.Prelude.{◌≡◌, ◌+◌, ◌*◌, ◌++◌, [], ◌∷◌, ◌<◌, ◌≤◌, length, Ok, OnOk, OnErr};
ghost use Rattle.cell_ascii.specs.parts.FrontCells.{first_cells_of_bytes_or_row, cells_cut_into_rows};

use cell_core::cell::Cell;
use cell_core::map::MapBuilder;
use cell_core::memory::Memory;
use cell_core::region::Region;

// Each call has a fixed cost, so short rows are read together, about this many cells per call.
const CELLS_READ_AT_ONCE: u32 = 1024;

// Appends a row to the bottom of a map, from bytes or from cells.
fn push_row_of_bytes_or_cells(
    builder: &mut MapBuilder,
    is_bytes: bool,
    bytes: &[u8],
    row: &[Cell],
) -> Result<(), Memory>
    requires width { length row.now ≡ builder.old.region.cols }
    requires bytes { length row.now ≤ length bytes.now }
    requires room { length builder.old.rows < builder.old.region.rows }
    ensures ok { OnOk result (builder.new ≡ record builder.old {
      rows = builder.old.rows ++ first_cells_of_bytes_or_row
          (length row.now, is_bytes) bytes.now row.now ∷ [];
    }) }
    ensures err { OnErr result (builder.new ≡ builder.old) }
{
    if is_bytes {
        return builder.push_row_of_bytes(&bytes[..row.len()]);
    }
    builder.push_row(row)
}

// Appends rows to the bottom of a map, from bytes or from cells.
pub(crate) fn push_rows_of_bytes_or_cells(
    builder: &mut MapBuilder,
    rows: u32,
    cols: usize,
    is_bytes: bool,
    bytes: &[u8],
    cells: &[Cell],
) -> Result<(), Memory>
    requires cols { cols ≡ builder.old.region.cols }
    requires width { length cells.now ≡ rows * cols }
    requires bytes { length cells.now ≤ length bytes.now }
    requires room { length builder.old.rows + rows ≤ builder.old.region.rows }
    ensures { OnOk result (builder.new ≡ record builder.old {
      rows = builder.old.rows ++ cells_cut_into_rows cols rows
          (first_cells_of_bytes_or_row (length cells.now, is_bytes) bytes.now cells.now);
    }) }
{
    let mut at = 0;
    let mut left = rows;
    'rows: while left > 0 {
        push_row_of_bytes_or_cells(builder, is_bytes, &bytes[at..], &cells[at..at + cols])?;
        at += cols;
        left -= 1;
    }
    Ok(())
}

// Returns the number of rows of a region that are read per call.
pub(crate) fn rows_read_per_call(region: Region) -> u32
    ensures some { 0 < result }
    ensures few { result ≤ 1024 }
{
    (CELLS_READ_AT_ONCE / region.cols())
        .min(region.rows())
        .max(1)
}
