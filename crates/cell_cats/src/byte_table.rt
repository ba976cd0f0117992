//! Looks up the new categories of cells that are stored as bytes.

ghost use Rattle.std.specs.Prelude.{◌≡◌, length, List, IfOk, IfSome};
ghost use Rattle.cell_core_values.specs.SmallCells.{cells_of_bytes};
ghost use Rattle.cell_cats.specs.Rule.{RuleValue};
ghost use Rattle.cell_cats.specs.Reclass.{reclassed_row};
ghost use Rattle.cell_cats.specs.parts.ByteTables.{IsByteReclassTable};
ghost use Rattle.cell_cats.specs.parts.Pieces.{IntervalsAgreeWithRules};

use crate::pieces::RuleOutputIntervals;
use cell_core::cell::Cell;
use cell_core::map::CellMap;
use cell_core::memory::Memory;
use cell_core_values::small_cells::{bytes_of_cells, cell_of_byte, cells_fit_in_bytes};
use std::alloc::Global;

// Number of different bytes.
const BYTE_TABLE_SIZE: usize = 256;

// If a map stores fewer cells as bytes, building a table takes longer than it saves.
const MIN_CELLS_FOR_BYTE_TABLE: usize = 16_384;

// Returns whether a map stores enough cells as bytes for a table to pay off.
fn has_enough_bytes_for_table(map: &CellMap) -> bool {
    let mut cells: usize = 0;
    for row in 0..map.region().rows() {
        if let Some(bytes) = map.bytes(row) {
            cells = cells.wrapping_add(bytes.len());
            if cells >= MIN_CELLS_FOR_BYTE_TABLE {
                return true;
            }
        }
    }
    false
}

// Returns a table with the byte of each byte's new category. Returns `None` if some new category has no byte, or if a
// table would not pay off.
pub(crate) fn byte_reclass_table(
    alloc: Global,
    pieces: &RuleOutputIntervals,
    given: &CellMap,
) -> Result<Option<Vec<u8>>, Memory>
    ensures size { IfOk result (λ table. IfSome table (λ bytes. length bytes.items ≡ 256)) }
    ensures right { IfOk result (λ table. IfSome table
        (λ bytes. (rules : List RuleValue) → IntervalsAgreeWithRules rules pieces.now
        → IsByteReclassTable rules bytes.items)) }
{
    if !has_enough_bytes_for_table(given) {
        return Ok(None);
    }
    let mut cells = vec![in alloc; Cell::null(); BYTE_TABLE_SIZE]?;
    for byte in 0..BYTE_TABLE_SIZE {
        cells[byte] = pieces.apply(cell_of_byte(byte as u8));
    }
    if !cells_fit_in_bytes(&cells) {
        return Ok(None);
    }
    let table = bytes_of_cells(alloc, &cells)?;
    Ok(Some(table))
}

// Writes the new categories of cells stored as bytes into a slice of the same length.
pub(crate) fn write_reclassed_bytes(table: &[u8], bytes: &[u8], row: &mut [u8])
    requires size { length table.now ≡ 256 }
    requires width { length row.old ≡ length bytes.now }
    ensures { (rules : List RuleValue) → IsByteReclassTable rules table.now
        → cells_of_bytes row.new ≡ reclassed_row rules (cells_of_bytes bytes.now) }
{
    for i in 0..row.len() {
        row[i] = table[bytes[i] as usize];
    }
}
