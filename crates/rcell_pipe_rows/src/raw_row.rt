//! Converts rows of bytes to rows of cells.

ghost use Rattle.std.specs.Prelude.{◌≡◌, ◌≤◌, ◌+◌, ◌*◌, ◌&&◌, not, true, ℤ, Option, length, slice_get, OnOk};
ghost use Rattle.cell_core_values.specs.Cell.{is_category};
ghost use Rattle.rcell_pipe_rows.specs.Numbers.{byte_size_of_cell_type, raw_number_at_place};
ghost use Rattle.rcell_pipe_rows.specs.parts.NarrowNumbers.{is_cell_type_within_i32, IsOnlyCategoryDenotingNull};
ghost use Rattle.rcell_pipe_rows.specs.RawRows.{is_hiding_mask_byte, is_nodata, is_unmapped_number, cell_of_raw_number, raw_cell_at_place, is_invalid_raw_number_at_place, raw_cells, has_invalid_raw_number, is_bad_mask, first_error_of_raw_row, row_error_of_result};

use crate::kind::{CellType, raw_number_at_place, raw_number_at_place_as_i32};
use cell_core_values::cell::Cell;

/// Why a row of bytes is not a row of cells. The first variant that applies is reported.
#[derive(Clone, Copy, Debug, PartialEq, Eq)]
pub enum RowError {
    /// A byte of the mask is neither 0 nor 1.
    BadMask,
    /// A number that the mask does not hide is neither null nor a category.
    OutOfRange,
}

// Returns whether the mask hides the cell at index `place`.
#[inline(always)]
pub(crate) fn is_hidden_by_mask(mask: &[u8], place: usize) -> bool
    ensures { result ≡ is_hiding_mask_byte (slice_get mask.now place) }
{
    match mask.get(place) {
        Some(byte) => *byte != 0,
        None => false,
    }
}

// Returns whether a number denotes null.
#[inline(always)]
pub(crate) fn is_nodata(nodata: Option<i64>, number: i64) -> bool
    ensures { result ≡ is_nodata nodata number }
{
    match nodata {
        Some(null) => number == null,
        None => false,
    }
}

// Returns whether a number is a category.
#[inline(always)]
fn is_category(number: i64) -> bool
    ensures { result ≡ is_category number }
{
    -2147483647 <= number && number <= 2147483647
}

// Returns the cell that a number denotes, or null if the number is not a category.
#[inline(always)]
fn cell_of_raw_number(nodata: Option<i64>, number: i64) -> Cell
    ensures { result ≡ cell_of_raw_number nodata number }
{
    if is_nodata(nodata, number) {
        return Cell::null();
    }
    if !is_category(number) {
        return Cell::null();
    }
    match Cell::value(number as i32) {
        Some(cell) => cell,
        None => Cell::null(),
    }
}

// Returns whether a number is neither null nor a category.
#[inline(always)]
fn is_unmapped_number(nodata: Option<i64>, number: i64) -> bool
    ensures { result ≡ is_unmapped_number nodata number }
{
    !is_nodata(nodata, number) && !is_category(number)
}

// Returns the cell at index `place` of a row.
#[inline(always)]
fn raw_cell_at_place(
    kind: CellType,
    nodata: Option<i64>,
    mask: &[u8],
    bytes: &[u8],
    place: usize,
) -> Cell
    requires { (place + 1) * byte_size_of_cell_type kind ≤ length bytes.now }
    ensures { result ≡ raw_cell_at_place kind nodata mask.now bytes.now place }
{
    if is_hidden_by_mask(mask, place) {
        return Cell::null();
    }
    cell_of_raw_number(nodata, raw_number_at_place(kind, bytes, place))
}

// Returns whether the number at index `place` is visible, and neither null nor a category.
#[inline(always)]
fn is_invalid_raw_number_at_place(
    kind: CellType,
    nodata: Option<i64>,
    mask: &[u8],
    bytes: &[u8],
    place: usize,
) -> bool
    requires { (place + 1) * byte_size_of_cell_type kind ≤ length bytes.now }
    ensures { result ≡ is_invalid_raw_number_at_place kind nodata mask.now bytes.now place }
{
    !is_hidden_by_mask(mask, place)
        && is_unmapped_number(nodata, raw_number_at_place(kind, bytes, place))
}

// Fills a row. Returns whether any number is not a valid cell.
#[inline(always)]
fn fill_row_and_report_invalid(
    kind: CellType,
    nodata: Option<i64>,
    mask: &[u8],
    bytes: &[u8],
    cells: &mut [Cell],
) -> bool
    requires { length cells.old * byte_size_of_cell_type kind ≤ length bytes.now }
    ensures cells { cells.new ≡ raw_cells kind nodata mask.now bytes.now (length cells.old) }
    ensures outside { result ≡ has_invalid_raw_number kind nodata mask.now bytes.now
        (length cells.old) }
{
    let mut outside = false;
    for i in 0..cells.len() {
        outside = outside | is_invalid_raw_number_at_place(kind, nodata, mask, bytes, i);
        cells[i] = raw_cell_at_place(kind, nodata, mask, bytes, i);
    }
    outside
}

// Fills a row with one loop per type, so that the compiler knows the type in each loop.
fn fill_row_by_cell_type(
    kind: CellType,
    nodata: Option<i64>,
    mask: &[u8],
    bytes: &[u8],
    cells: &mut [Cell],
) -> bool
    requires { length cells.old * byte_size_of_cell_type kind ≤ length bytes.now }
    ensures cells { cells.new ≡ raw_cells kind nodata mask.now bytes.now (length cells.old) }
    ensures outside { result ≡ has_invalid_raw_number kind nodata mask.now bytes.now
        (length cells.old) }
{
    match kind {
        CellType::U8 => fill_row_and_report_invalid(CellType::U8, nodata, mask, bytes, cells),
        CellType::I8 => fill_row_and_report_invalid(CellType::I8, nodata, mask, bytes, cells),
        CellType::U16 => fill_row_and_report_invalid(CellType::U16, nodata, mask, bytes, cells),
        CellType::I16 => fill_row_and_report_invalid(CellType::I16, nodata, mask, bytes, cells),
        CellType::U32 => fill_row_and_report_invalid(CellType::U32, nodata, mask, bytes, cells),
        CellType::I32 => fill_row_and_report_invalid(CellType::I32, nodata, mask, bytes, cells),
        CellType::I64 => fill_row_and_report_invalid(CellType::I64, nodata, mask, bytes, cells),
    }
}

// Returns the number that denotes null if it is a category, and otherwise the smallest `i32`, which is not a category.
fn null_number_or_smallest_i32(nodata: Option<i64>) -> i32
    ensures { IsOnlyCategoryDenotingNull nodata result }
{
    match nodata {
        Some(number) => {
            if is_category(number) {
                number as i32
            } else {
                i32::MIN
            }
        }
        None => i32::MIN,
    }
}

// Returns the cell that an `i32` number denotes.
#[inline(always)]
fn cell_of_i32_number(null: i32, number: i32) -> Cell
    ensures { (nodata : Option ℤ) → IsOnlyCategoryDenotingNull nodata null
        → result ≡ cell_of_raw_number nodata number }
{
    if number == null {
        return Cell::null();
    }
    match Cell::value(number) {
        Some(cell) => cell,
        None => Cell::null(),
    }
}

// Returns the cell at index `place` of a row whose numbers fit in an `i32`.
#[inline(always)]
fn raw_cell_at_place_of_narrow_row(
    kind: CellType,
    null: i32,
    mask: &[u8],
    bytes: &[u8],
    place: usize,
) -> Cell
    requires size { (place + 1) * byte_size_of_cell_type kind ≤ length bytes.now }
    requires narrow { is_cell_type_within_i32 kind ≡ true }
    ensures { (nodata : Option ℤ) → IsOnlyCategoryDenotingNull nodata null
        → result ≡ raw_cell_at_place kind nodata mask.now bytes.now place }
{
    // The number is read even if it is hidden, so that the loop can be vectorized.
    let cell = cell_of_i32_number(null, raw_number_at_place_as_i32(kind, bytes, place));
    if !is_hidden_by_mask(mask, place) {
        return cell;
    }
    Cell::null()
}

// Returns whether the number at index `place` is not a valid cell, if numbers fit in an `i32` and the smallest does not
// denote null.
#[inline(always)]
fn is_invalid_narrow_number_at_place(
    kind: CellType,
    mask: &[u8],
    bytes: &[u8],
    place: usize,
) -> bool
    requires size { (place + 1) * byte_size_of_cell_type kind ≤ length bytes.now }
    requires narrow { is_cell_type_within_i32 kind ≡ true }
    ensures { (nodata : Option ℤ) → (result && not (is_nodata nodata i32.MIN))
        ≡ is_invalid_raw_number_at_place kind nodata mask.now bytes.now place }
{
    let number = raw_number_at_place_as_i32(kind, bytes, place);
    !is_hidden_by_mask(mask, place) & (number == i32::MIN)
}

// Fills a row of numbers that fit in an `i32`. Returns whether any number is not a valid cell.
#[inline(always)]
fn fill_row_of_narrow_numbers(
    kind: CellType,
    nodata: Option<i64>,
    mask: &[u8],
    bytes: &[u8],
    cells: &mut [Cell],
) -> bool
    requires size { length cells.old * byte_size_of_cell_type kind ≤ length bytes.now }
    requires narrow { is_cell_type_within_i32 kind ≡ true }
    ensures cells { cells.new ≡ raw_cells kind nodata mask.now bytes.now (length cells.old) }
    ensures outside { result ≡ has_invalid_raw_number kind nodata mask.now bytes.now
        (length cells.old) }
{
    let null = null_number_or_smallest_i32(nodata);
    let mut found = false;
    for i in 0..cells.len() {
        found = found | is_invalid_narrow_number_at_place(kind, mask, bytes, i);
        cells[i] = raw_cell_at_place_of_narrow_row(kind, null, mask, bytes, i);
    }
    found && !is_nodata(nodata, i64::from(i32::MIN))
}

// Fills a row, with `i32` loops for narrow types. Inlined, so that the compiler may know that the mask is empty or
// complete.
#[inline(always)]
fn fill_row_fast(
    kind: CellType,
    nodata: Option<i64>,
    mask: &[u8],
    bytes: &[u8],
    cells: &mut [Cell],
) -> bool
    requires { length cells.old * byte_size_of_cell_type kind ≤ length bytes.now }
    ensures cells { cells.new ≡ raw_cells kind nodata mask.now bytes.now (length cells.old) }
    ensures outside { result ≡ has_invalid_raw_number kind nodata mask.now bytes.now
        (length cells.old) }
{
    match kind {
        CellType::U16 => fill_row_of_narrow_numbers(CellType::U16, nodata, mask, bytes, cells),
        CellType::I16 => fill_row_of_narrow_numbers(CellType::I16, nodata, mask, bytes, cells),
        CellType::I32 => fill_row_of_narrow_numbers(CellType::I32, nodata, mask, bytes, cells),
        _ => fill_row_by_cell_type(kind, nodata, mask, bytes, cells),
    }
}

// Returns whether a mask has a byte other than 0 and 1.
pub(crate) fn is_bad_mask(mask: &[u8]) -> bool
    ensures { result ≡ is_bad_mask mask.now }
{
    // There is no early exit, so that the loop can be vectorized.
    let mut found = false;
    for byte in mask {
        found = found | (1 < *byte);
    }
    found
}

/// Reads a row of numbers into a slice of the same length. An empty mask hides nothing.
///
/// # Errors
///
/// Returns the first [`RowError`], in the order of its variants.
pub fn read_raw_row_as_cells(
    kind: CellType,
    nodata: Option<i64>,
    mask: &[u8],
    bytes: &[u8],
    cells: &mut [Cell],
) -> Result<(), RowError>
    requires { length cells.old * byte_size_of_cell_type kind ≤ length bytes.now }
    ensures ok { OnOk result
        (cells.new ≡ raw_cells kind nodata mask.now bytes.now (length cells.old)) }
    ensures width { length cells.new ≡ length cells.old }
    ensures error { row_error_of_result result
        ≡ first_error_of_raw_row kind nodata mask.now bytes.now (length cells.old) }
{
    if is_bad_mask(mask) {
        return Err(RowError::BadMask);
    }
    let outside = if mask.is_empty() {
        fill_row_fast(kind, nodata, &[], bytes, cells)
    } else if mask.len() == cells.len() {
        // Here the compiler knows that the mask has a byte for each number, and can vectorize the loop.
        fill_row_fast(kind, nodata, mask, bytes, cells)
    } else {
        fill_row_by_cell_type(kind, nodata, mask, bytes, cells)
    };
    if outside {
        return Err(RowError::OutOfRange);
    }
    Ok(())
}
