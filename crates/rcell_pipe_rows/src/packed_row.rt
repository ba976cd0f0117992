//! Rows of `u8` numbers, packed into bytes as maps store small cells.

ghost use Rattle.std.specs.Prelude.{◌≡◌, ◌≢◌, ◌<◌, ◌*◌, ℕ, pos, ◌==◌, true, false, length, map, slice_get, slice_index_or, Ok, IfOk};
ghost use Rattle.cell_core_values.specs.SmallCells.{cells_of_bytes};
ghost use Rattle.rcell_pipe_rows.specs.declared.kind.CellType.TheVariants.{U8};
ghost use Rattle.rcell_pipe_rows.specs.Numbers.{byte_size_of_cell_type};
ghost use Rattle.rcell_pipe_rows.specs.RawRows.{is_hiding_mask_byte, is_nodata, places_in_row, raw_cells, has_invalid_raw_number, first_error_of_raw_row, row_error_of_result};
ghost use Rattle.rcell_pipe_rows.specs.PackedRows.{cells_of_maybe_packed_row};
ghost use Rattle.rcell_pipe_rows.specs.parts.PackedBytes.{packed_byte_at_place};

use crate::kind::CellType;
use crate::raw_row::{RowError, is_bad_mask, is_hidden_by_mask, is_nodata, read_raw_row_as_cells};
use cell_core_values::cell::Cell;

// The byte that denotes null in a packed row.
const PACKED_NULL: u8 = 255;

// Returns the number below 255 that denotes null, or 255 if there is none.
fn packed_nodata_byte(nodata: Option<i64>) -> u8
    ensures { (number : ℕ) → number < 255
        → (number == result) ≡ is_nodata nodata (pos number) }
{
    match nodata {
        Some(number) => {
            if 0 <= number && number <= 254 {
                number as u8
            } else {
                PACKED_NULL
            }
        }
        None => PACKED_NULL,
    }
}

// Returns whether a number that no mask hides is 255.
#[inline(always)]
fn has_unmasked_number_255(mask: &[u8], bytes: &[u8]) -> bool
    ensures { result ≡ false → (place : ℕ) → place < length bytes.now
        → is_hiding_mask_byte (slice_get mask.now place) ≡ false
        → slice_index_or bytes.now place 0 ≢ 255 }
{
    let mut found = false;
    for i in 0..bytes.len() {
        found = found | ((bytes[i] == PACKED_NULL) & !is_hidden_by_mask(mask, i));
    }
    found
}

// Returns the packed number at index `place`.
#[inline(always)]
fn packed_byte_at_place(mask: &[u8], null: u8, bytes: &[u8], place: usize) -> u8
    requires { place < length bytes.now }
    ensures { result ≡ packed_byte_at_place mask.now null bytes.now place }
{
    // The number is read even if it is hidden, so that the loop can be vectorized.
    let byte = bytes[place];
    if is_hidden_by_mask(mask, place) | (byte == null) {
        PACKED_NULL
    } else {
        byte
    }
}

// Packs each number.
#[inline(always)]
fn pack_all_numbers(mask: &[u8], null: u8, bytes: &mut [u8])
    ensures { bytes.new
        ≡ map (packed_byte_at_place mask.now null bytes.old) (places_in_row (length bytes.old)) }
{
    for i in 0..bytes.len() {
        bytes[i] = packed_byte_at_place(mask, null, bytes, i);
    }
}

// Does the work of `pack_row_if_possible`. Inlined, so that the compiler may know that the mask is empty.
#[inline(always)]
fn pack_row_inlined(nodata: Option<i64>, mask: &[u8], bytes: &mut [u8]) -> bool
    ensures packed { result ≡ true → cells_of_bytes bytes.new
        ≡ raw_cells U8 nodata mask.now bytes.old (length bytes.old) }
    ensures inside { result ≡ true
        → has_invalid_raw_number U8 nodata mask.now bytes.old (length bytes.old) ≡ false }
    ensures left { result ≡ false → bytes.new ≡ bytes.old }
    ensures width { length bytes.new ≡ length bytes.old }
{
    if !is_nodata(nodata, 255) && has_unmasked_number_255(mask, bytes) {
        return false;
    }
    pack_all_numbers(mask, packed_nodata_byte(nodata), bytes);
    true
}

/// Packs a row of `u8` numbers into the bytes of its cells, with 255 for null. An empty mask hides nothing. Returns
/// false and leaves the row unchanged if a cell is the category 255, which cannot be packed.
pub fn pack_row_if_possible(nodata: Option<i64>, mask: &[u8], bytes: &mut [u8]) -> bool
    ensures packed { result ≡ true → cells_of_bytes bytes.new
        ≡ raw_cells U8 nodata mask.now bytes.old (length bytes.old) }
    ensures inside { result ≡ true
        → has_invalid_raw_number U8 nodata mask.now bytes.old (length bytes.old) ≡ false }
    ensures left { result ≡ false → bytes.new ≡ bytes.old }
    ensures width { length bytes.new ≡ length bytes.old }
{
    if mask.is_empty() {
        pack_row_inlined(nodata, &[], bytes)
    } else if mask.len() == bytes.len() {
        // Here the compiler knows that the mask has a byte for each number, and can vectorize the loop.
        pack_row_inlined(nodata, mask, bytes)
    } else {
        pack_row_inlined(nodata, mask, bytes)
    }
}

/// Reads a row of numbers. If each cell fits in a byte, packs the row in place and returns true; otherwise writes the
/// cells to a slice of the same length and returns false. An empty mask hides nothing.
///
/// # Errors
///
/// Returns the first [`RowError`], in the order of its variants.
pub fn pack_row_or_write_cells(
    kind: CellType,
    nodata: Option<i64>,
    mask: &[u8],
    bytes: &mut [u8],
    cells: &mut [Cell],
) -> Result<bool, RowError>
    requires { length bytes.old ≡ length cells.old * byte_size_of_cell_type kind }
    ensures ok { IfOk result (λ packed. cells_of_maybe_packed_row packed bytes.new cells.new
        ≡ raw_cells kind nodata mask.now bytes.old (length cells.old)) }
    ensures error { row_error_of_result result
        ≡ first_error_of_raw_row kind nodata mask.now bytes.old (length cells.old) }
    ensures packed { result ≡ Ok true → length bytes.new ≡ length cells.old }
    ensures width { length cells.new ≡ length cells.old }
    ensures size { length bytes.new ≡ length bytes.old }
{
    if is_bad_mask(mask) {
        return Err(RowError::BadMask);
    }
    if kind == CellType::U8 && pack_row_if_possible(nodata, mask, bytes) {
        return Ok(true);
    }
    match read_raw_row_as_cells(kind, nodata, mask, bytes, cells) {
        Ok(()) => Ok(false),
        Err(error) => Err(error),
    }
}
