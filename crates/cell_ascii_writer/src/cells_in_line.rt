//! Writes the cells of a row into a line.

ghost use Rattle.std.specs.Prelude.{◌≡◌, ℕ, ◌+◌, ◌*◌, ◌<◌, ◌≤◌, ◌∷◌, ◌++◌, codes, length, replicate, take};
ghost use Rattle.cell_core_values.specs.Letters.{byte};
ghost use Rattle.cell_core_values.specs.SmallCells.{cells_of_bytes};
ghost use Rattle.cell_core.specs.Text.{cell_text};
ghost use Rattle.cell_ascii_writer.specs.Fields.{lowest_bytes_of_number};
ghost use Rattle.cell_ascii_writer.specs.WrittenRuns.{cell_texts_each_after_a_space, repeated_text};

use crate::fields::{
    Field, PreparedCellFields, is_from_0_to_999999, put_field_into_line, put_space_and_text,
};
use cell_core::cell::Cell;
use cell_core_values::small_cells::cell_of_byte;
use itoa::Buffer;

// Maximum number of cells gathered before they are written.
pub(crate) const MOST_CELLS_IN_LINE_BUFFER: usize = 128;

// Number of bytes reserved for a cell: a space and at most 64 bytes of text. Multiplying by 72 is faster than by 65.
pub(crate) const BUFFER_BYTES_PER_CELL: usize = 72;

// Number of bytes in a line of CELLS cells.
pub(crate) const LINE_BUFFER_BYTES: usize = MOST_CELLS_IN_LINE_BUFFER * BUFFER_BYTES_PER_CELL;

// Writes a space and a cell, whose text may be long, into a line at index `at`. Returns where they end.
fn put_space_and_cell(
    line: &mut [u8],
    at: usize,
    cell: Cell,
    fields: &PreparedCellFields<'_>,
) -> usize
    requires { at + 72 ≤ length line.old }
    ensures end { result ≤ at + 72 }
    ensures text { take result line.new
        ≡ take at line.old ++ byte (codes " ") ∷ cell_text fields.now cell }
{
    match cell.get() {
        None => put_space_and_text(line, at, fields.null_text()),
        Some(category) => put_space_and_text(line, at, Buffer::new().format(category).as_bytes()),
    }
}

// Writes a field `count` times into a line, starting at index `start`. Returns where the last one ends.
#[inline(always)]
fn put_field_repeatedly(line: &mut [u8], start: usize, field: Field, count: usize) -> usize
    requires room { start + 8 * count ≤ length line.old }
    requires few { field.size ≤ 8 }
    ensures end { result ≤ start + 8 * count }
    ensures text { take result line.new
        ≡ take start line.old ++ repeated_text count
        (lowest_bytes_of_number field.bytes field.size) }
{
    let mut end = start;
    for _ in 0..count {
        end = put_field_into_line(line, end, field);
    }
    end
}

// Writes a space and a cell, whose text may be long, `count` times into a line. Returns where the last one ends.
fn put_space_and_cell_repeatedly(
    line: &mut [u8],
    start: usize,
    cell: Cell,
    count: usize,
    fields: &PreparedCellFields<'_>,
) -> usize
    requires { start + 72 * count ≤ length line.old }
    ensures end { result ≤ start + 72 * count }
    ensures text { take result line.new
        ≡ take start line.old ++ cell_texts_each_after_a_space fields.now (replicate count cell) }
{
    let mut end = start;
    for _ in 0..count {
        end = put_space_and_cell(line, end, cell, fields);
    }
    end
}

// Writes a space and a cell `count` times into a line, if the cell is null or its text is long. Not inlined, because it
// would take registers from the loops over cells.
#[inline(never)]
fn put_null_or_long_cell_repeatedly(
    line: &mut [u8],
    start: usize,
    cell: Cell,
    count: usize,
    fields: &PreparedCellFields<'_>,
) -> usize
    requires { start + 72 * count ≤ length line.old }
    ensures end { result ≤ start + 72 * count }
    ensures text { take result line.new
        ≡ take start line.old ++ cell_texts_each_after_a_space fields.now (replicate count cell) }
{
    match cell.get() {
        None if fields.has_null() => put_field_repeatedly(
            line,
            start,
            fields.field_of_byte_cell(255),
            count,
        ),
        _ => put_space_and_cell_repeatedly(line, start, cell, count, fields),
    }
}

// Writes a space and a cell `count` times into a line. Checks for numbers with few digits first, because they are most
// common.
#[inline(always)]
pub(crate) fn put_run_into_line(
    line: &mut [u8],
    start: usize,
    cell: Cell,
    count: usize,
    fields: &PreparedCellFields<'_>,
) -> usize
    requires { start + 72 * count ≤ length line.old }
    ensures end { result ≤ start + 72 * count }
    ensures text { take result line.new
        ≡ take start line.old ++ cell_texts_each_after_a_space fields.now (replicate count cell) }
{
    let field = match cell.get() {
        Some(category) if is_from_0_to_999999(category) => fields.of_number(category),
        Some(category @ -999_999..=9_999_999) => fields.field_of_short_category(category),
        _ => return put_null_or_long_cell_repeatedly(line, start, cell, count, fields),
    };
    put_field_repeatedly(line, start, field, count)
}

// Writes a space and the text of each cell into a line. Returns where the last one ends.
#[inline(never)]
pub(crate) fn put_cells_into_line(
    line: &mut [u8],
    cells: &[Cell],
    fields: &PreparedCellFields<'_>,
) -> usize
    requires { 72 * length cells.now ≤ length line.old }
    ensures end { result ≤ length line.old }
    ensures text { take result line.new ≡ cell_texts_each_after_a_space fields.now cells.now }
{
    let mut end = 0;
    for cell in cells {
        end = put_run_into_line(line, end, *cell, 1, fields);
    }
    end
}

// Like `put_cells_into_line`, for the cells that bytes stand for.
#[inline(never)]
fn put_cells_of_bytes(line: &mut [u8], bytes: &[u8], fields: &PreparedCellFields<'_>) -> usize
    requires { 72 * length bytes.now ≤ length line.old }
    ensures end { result ≤ length line.old }
    ensures text { take result line.new ≡ cell_texts_each_after_a_space fields.now
        (cells_of_bytes bytes.now) }
{
    let mut end = 0;
    for byte in bytes {
        end = put_run_into_line(line, end, cell_of_byte(*byte), 1, fields);
    }
    end
}

// Like `put_cells_of_bytes`, but faster if null has a field, because every cell stored as a byte then has a field.
#[inline(never)]
pub(crate) fn put_cells_of_bytes_fast(
    line: &mut [u8],
    bytes: &[u8],
    fields: &PreparedCellFields<'_>,
) -> usize
    requires { 72 * length bytes.now ≤ length line.old }
    ensures end { result ≤ length line.old }
    ensures text { take result line.new ≡ cell_texts_each_after_a_space fields.now
        (cells_of_bytes bytes.now) }
{
    if !fields.has_null() {
        return put_cells_of_bytes(line, bytes, fields);
    }
    let mut end = 0;
    for byte in bytes {
        end = put_field_into_line(line, end, fields.field_of_byte_cell(*byte));
    }
    end
}
