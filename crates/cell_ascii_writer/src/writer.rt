//! Writes maps as grid texts.

ghost use Rattle.std.specs.Prelude.{◌≡◌, ◌+◌, ◌<◌, ◌≤◌, ◌==◌, ◌++◌, codes, decimal, drop, flat_map, All, length, replicate, reverse, take, OnOk, IfOk, IfErr, is_err};
ghost use Rattle.std.specs.List.{prefix_len};
ghost use Rattle.cell_core_values.specs.Letters.{byte};
ghost use Rattle.cell_core_values.specs.SmallCells.{cells_of_bytes};
ghost use Rattle.cell_core_devices.specs.Blocks.{IsTextAppendedThroughBlock};
ghost use Rattle.cell_core_devices.specs.Device.{append_if_known, faults_after_put};
ghost use Rattle.cell_core.specs.Grid.{row_at};
ghost use Rattle.cell_core.specs.Runs.{cells_of_runs};
ghost use Rattle.cell_ascii_meaning.specs.Writing.{IsValidNullText, coordinate_text, fraction_text, grid_text, key_line, null_text_header_line, header_lines_of_region, row_text, unsigned_coordinate_text, digits_without_trailing_zeros};
ghost use Rattle.cell_ascii_writer.specs.Fields.{HasAppendedTextExceptPending};
ghost use Rattle.cell_ascii_writer.specs.WrittenRuns.{cell_texts_each_after_a_space, cell_texts_separated_by_spaces};

use crate::cells_in_line::{
    BUFFER_BYTES_PER_CELL, LINE_BUFFER_BYTES, MOST_CELLS_IN_LINE_BUFFER, put_cells_into_line,
    put_cells_of_bytes_fast, put_run_into_line,
};
use crate::fields::PreparedCellFields;
use cell_core::block::OutputBlock;
use cell_core::cell::Cell;
use cell_core::map::CellMap;
use cell_core::printed_cell::write_cell;
use cell_core::region::Region;
use cell_core::sink::{Sink, WriteFault};
use cell_core::stretches::RunsOrCells;
use cell_core_values::small_cells::cell_of_byte;
use itoa::Buffer;

/// Number of units in a coordinate of 1.
pub const COORDINATE_UNITS_PER_MAP_UNIT: u64 = 100000000;

// Returns the number of trailing zeros.
fn trailing_zero_count(digits: &[u8]) -> usize
    ensures count { result ≡ prefix_len (λ b. b == byte (codes "0")) (reverse digits.now) }
    ensures within { result ≤ length digits.now }
{
    digits.iter().rev().take_while(|b| **b == b'0').count()
}

/// Returns the digits without trailing zeros.
pub fn digits_without_trailing_zeros(digits: &[u8]) -> &[u8]
    ensures value { result.now ≡ digits_without_trailing_zeros digits.now }
    ensures len { length result.now ≤ length digits.now }
{
    &digits[..digits.len() - trailing_zero_count(digits)]
}

/// Returns the eight digits of a fraction of 10^8: the digits of 10^8 plus the fraction, without the leading 1.
#[tactic(auto, using(std::proofs::lemmas::Fmt::decimal_nonempty))]
pub fn eight_digits_of_fraction(buffer: &mut Buffer, part: u64) -> &[u8]
    requires { part < 100000000 }
    ensures value { result.now ≡ drop 1 (decimal (100000000 + part)) }
    ensures len { length result.now ≤ 40 }
{
    let digits = buffer
        .format(COORDINATE_UNITS_PER_MAP_UNIT + part)
        .as_bytes();
    &digits[1..]
}

// Writes a point and up to eight digits of a fraction of 10^8, without trailing zeros, or nothing if it is 0.
fn write_fraction<W: Sink>(out: &mut W, block: &mut OutputBlock, part: u64)
    requires { part < 100000000 }
    ensures { IsTextAppendedThroughBlock W.taken W.faults out.old block.old
        (fraction_text part) out.new block.new }
{
    if part == 0 {
        return;
    }
    block.push(out, b".");
    block.push(
        out,
        digits_without_trailing_zeros(eight_digits_of_fraction(&mut Buffer::new(), part)),
    );
}

// Writes a non-negative coordinate, given in units of 10^-8.
fn write_unsigned_coordinate<W: Sink>(out: &mut W, block: &mut OutputBlock, units: u64)
    ensures { IsTextAppendedThroughBlock W.taken W.faults out.old block.old
        (unsigned_coordinate_text units) out.new block.new }
{
    block.push(
        out,
        Buffer::new()
            .format(units / COORDINATE_UNITS_PER_MAP_UNIT)
            .as_bytes(),
    );
    write_fraction(out, block, units % COORDINATE_UNITS_PER_MAP_UNIT);
}

// Writes a coordinate, given in units of 10^-8.
fn write_coordinate<W: Sink>(out: &mut W, block: &mut OutputBlock, units: i64)
    ensures { IsTextAppendedThroughBlock W.taken W.faults out.old block.old
        (coordinate_text units) out.new block.new }
{
    if units < 0 {
        block.push(out, b"-");
    }
    write_unsigned_coordinate(out, block, units.unsigned_abs());
}

// Writes a key and its separator.
fn write_header_key<W: Sink>(out: &mut W, block: &mut OutputBlock, key: &[u8])
    ensures { IsTextAppendedThroughBlock W.taken W.faults out.old block.old (key.now
        ++ codes ": ") out.new block.new }
{
    block.push(out, key);
    block.push(out, b": ");
}

// Writes the header line of an edge, given in units of 10^-8.
fn write_header_line_of_edge<W: Sink>(out: &mut W, block: &mut OutputBlock, key: &[u8], edge: i64)
    ensures { IsTextAppendedThroughBlock W.taken W.faults out.old block.old
        (key_line key.now (coordinate_text edge)) out.new block.new }
{
    write_header_key(out, block, key);
    write_coordinate(out, block, edge);
    block.push(out, b"\n");
}

// Writes a header line.
fn write_header_line<W: Sink>(out: &mut W, block: &mut OutputBlock, key: &[u8], value: &[u8])
    ensures { IsTextAppendedThroughBlock W.taken W.faults out.old block.old
        (key_line key.now value.now)
        out.new block.new }
{
    write_header_key(out, block, key);
    block.push(out, value);
    block.push(out, b"\n");
}

// Writes the header line of a number of rows or columns.
fn write_header_line_of_count<W: Sink>(out: &mut W, block: &mut OutputBlock, key: &[u8], count: u32)
    ensures { IsTextAppendedThroughBlock W.taken W.faults out.old block.old
        (key_line key.now (decimal count))
        out.new block.new }
{
    write_header_line(out, block, key, Buffer::new().format(count).as_bytes());
}

// Writes the six header lines of a region.
fn write_header_lines_of_region<W: Sink>(out: &mut W, block: &mut OutputBlock, region: Region)
    ensures { IsTextAppendedThroughBlock W.taken W.faults out.old block.old
        (header_lines_of_region region) out.new block.new }
{
    write_header_line_of_edge(out, block, b"north", region.north());
    write_header_line_of_edge(out, block, b"south", region.south());
    write_header_line_of_edge(out, block, b"east", region.east());
    write_header_line_of_edge(out, block, b"west", region.west());
    write_header_line_of_count(out, block, b"rows", region.rows());
    write_header_line_of_count(out, block, b"cols", region.cols());
}

// Writes the header line of the null text, unless it is the default.
fn write_header_line_of_null_text<W: Sink>(out: &mut W, block: &mut OutputBlock, null_text: &[u8])
    ensures { IsTextAppendedThroughBlock W.taken W.faults out.old block.old
        (null_text_header_line null_text.now)
        out.new block.new }
{
    if null_text == b"*".as_slice() {
        return;
    }
    write_header_line(out, block, b"null", null_text);
}

// Writes the first `end` bytes of a line to the block. Not inlined, because it would take registers from the loops over
// cells.
#[inline(never)]
fn push_first_bytes_of_line<W: Sink>(out: &mut W, block: &mut OutputBlock, line: &[u8], end: usize)
    requires { end ≤ length line.now }
    ensures { IsTextAppendedThroughBlock W.taken W.faults out.old block.old
        (take end line.now) out.new block.new }
{
    block.push(out, &line[..end]);
}

// Writes a space and a cell for each cell of a run that does not fit into the line after its first `start` bytes.
// Writes the full parts of the line to the block, and returns the number of remaining bytes.
#[inline(never)]
fn write_run_too_long_for_line<W: Sink>(
    out: &mut W,
    block: &mut OutputBlock,
    line: &mut [u8],
    start: usize,
    run: (Cell, u32),
    fields: &PreparedCellFields<'_>,
) -> usize
    requires room { length line.old ≡ 9216 }
    requires start { start ≤ 9216 }
    ensures text { HasAppendedTextExceptPending W.taken W.faults out.old block.old
        (take start line.old ++ cell_texts_each_after_a_space fields.now (replicate run.1 run.0))
        (take result line.new) out.new block.new }
    ensures end { result ≤ 9216 }
{
    push_first_bytes_of_line(out, block, line, start);
    let mut left = run.1 as usize;
    while left > MOST_CELLS_IN_LINE_BUFFER {
        let end = put_run_into_line(line, 0, run.0, MOST_CELLS_IN_LINE_BUFFER, fields);
        push_first_bytes_of_line(out, block, line, end);
        left -= MOST_CELLS_IN_LINE_BUFFER;
    }
    put_run_into_line(line, 0, run.0, left, fields)
}

// Like `write_run_too_long_for_line`, for runs of any length.
#[inline(always)]
fn write_run<W: Sink>(
    out: &mut W,
    block: &mut OutputBlock,
    line: &mut [u8],
    start: usize,
    run: (Cell, u32),
    fields: &PreparedCellFields<'_>,
) -> usize
    requires room { length line.old ≡ 9216 }
    requires start { start ≤ 9216 }
    ensures text { HasAppendedTextExceptPending W.taken W.faults out.old block.old
        (take start line.old ++ cell_texts_each_after_a_space fields.now (replicate run.1 run.0))
        (take result line.new) out.new block.new }
    ensures end { result ≤ 9216 }
{
    if start + BUFFER_BYTES_PER_CELL * run.1 as usize <= LINE_BUFFER_BYTES {
        return put_run_into_line(line, start, run.0, run.1 as usize, fields);
    }
    write_run_too_long_for_line(out, block, line, start, run, fields)
}

// Writes a space and a cell for each cell of the runs, after the first `start` bytes of a line.
fn write_runs<W: Sink>(
    out: &mut W,
    block: &mut OutputBlock,
    line: &mut [u8],
    start: usize,
    runs: RunsOrCells<'_>,
    fields: &PreparedCellFields<'_>,
)
    requires room { length line.old ≡ 9216 }
    requires start { start ≤ 9216 }
    ensures { IsTextAppendedThroughBlock W.taken W.faults out.old block.old
        (take start line.old ++ cell_texts_each_after_a_space fields.now (cells_of_runs runs.entry))
        out.new block.new }
{
    let mut end = start;
    for (cell, count) in runs {
        end = write_run(out, block, line, end, (cell, count), fields);
    }
    push_first_bytes_of_line(out, block, line, end);
}

// Writes the cells of a row given as runs, separated by spaces.
fn write_row_of_runs<W: Sink>(
    out: &mut W,
    block: &mut OutputBlock,
    line: &mut [u8],
    runs: RunsOrCells<'_>,
    fields: &PreparedCellFields<'_>,
)
    requires some { All (λ run. 0 < run.1) runs }
    requires room { length line.old ≡ 9216 }
    ensures { IsTextAppendedThroughBlock W.taken W.faults out.old block.old
        (cell_texts_separated_by_spaces fields.now (cells_of_runs runs.entry)) out.new block.new }
{
    let mut others = runs;
    let Some(first) = others.next() else {
        return;
    };
    write_cell(out, block, first.0, fields.null_text());
    let others_alike = (first.0, first.1 - 1);
    let end = write_run(out, block, line, 0, others_alike, fields);
    write_runs(out, block, line, end, others, fields);
}

// Writes the cells of a row, separated by spaces.
fn write_row_of_cells<W: Sink>(
    out: &mut W,
    block: &mut OutputBlock,
    line: &mut [u8],
    cells: &[Cell],
    fields: &PreparedCellFields<'_>,
)
    requires { length line.old ≡ 9216 }
    ensures { IsTextAppendedThroughBlock W.taken W.faults out.old block.old
        (cell_texts_separated_by_spaces fields.now cells.now)
        out.new block.new }
{
    let Some((first, others)) = cells.split_first() else {
        return;
    };
    write_cell(out, block, *first, fields.null_text());
    let mut rest = others;
    while rest.len() > MOST_CELLS_IN_LINE_BUFFER {
        let (part, after) = rest.split_at(MOST_CELLS_IN_LINE_BUFFER);
        let end = put_cells_into_line(line, part, fields);
        push_first_bytes_of_line(out, block, line, end);
        rest = after;
    }
    let end = put_cells_into_line(line, rest, fields);
    push_first_bytes_of_line(out, block, line, end);
}

// Writes cells stored as bytes, separated by spaces.
fn write_row_of_byte_cells<W: Sink>(
    out: &mut W,
    block: &mut OutputBlock,
    line: &mut [u8],
    bytes: &[u8],
    fields: &PreparedCellFields<'_>,
)
    requires { length line.old ≡ 9216 }
    ensures { IsTextAppendedThroughBlock W.taken W.faults out.old block.old
        (cell_texts_separated_by_spaces fields.now (cells_of_bytes bytes.now)) out.new block.new }
{
    let Some((first, others)) = bytes.split_first() else {
        return;
    };
    write_cell(out, block, cell_of_byte(*first), fields.null_text());
    let mut rest = others;
    while rest.len() > MOST_CELLS_IN_LINE_BUFFER {
        let (part, after) = rest.split_at(MOST_CELLS_IN_LINE_BUFFER);
        let end = put_cells_of_bytes_fast(line, part, fields);
        push_first_bytes_of_line(out, block, line, end);
        rest = after;
    }
    let end = put_cells_of_bytes_fast(line, rest, fields);
    push_first_bytes_of_line(out, block, line, end);
}

// Writes the cells of a row in its stored form.
fn write_stored_row_as_text<W: Sink>(
    out: &mut W,
    block: &mut OutputBlock,
    line: &mut [u8],
    map: &CellMap,
    row: u32,
    fields: &PreparedCellFields<'_>,
)
    requires row { row < map.now.region.rows }
    requires room { length line.old ≡ 9216 }
    ensures { IsTextAppendedThroughBlock W.taken W.faults out.old block.old
        (cell_texts_separated_by_spaces fields.now (row_at map.now row)) out.new block.new }
{
    if let Some(cells) = map.cells(row) {
        return write_row_of_cells(out, block, line, cells, fields);
    }
    if let Some(bytes) = map.bytes(row) {
        return write_row_of_byte_cells(out, block, line, bytes, fields);
    }
    write_row_of_runs(out, block, line, map.stretches(row), fields);
}

// Writes the lines of all rows. Not inlined, because its tables of 32 KiB would stay on the stack while a caller counts
// cells.
#[inline(never)]
fn write_lines_of_all_rows<W: Sink>(
    out: &mut W,
    block: &mut OutputBlock,
    map: &CellMap,
    null_text: &[u8],
)
    requires { length null_text.now ≤ 64 }
    ensures { IsTextAppendedThroughBlock W.taken W.faults out.old block.old
        (flat_map (row_text null_text.now) map.now.rows) out.new block.new }
{
    let fields = PreparedCellFields::new(null_text);
    let mut line = [0u8; LINE_BUFFER_BYTES];
    for row in 0..map.region().rows() {
        if block.has_failed() {
            return;
        }
        write_stored_row_as_text(out, block, &mut line, map, row, &fields);
        block.push(out, b"\n");
    }
}

/// Writes the grid text of a map through a block.
///
/// The text consists of the six header lines of the region, a header line for the null text if that is not `*`, and a
/// line for each row, with a space between cells (r.out.ascii manual). Coordinates are exact, categories are decimal,
/// and null is the null text, which must have 1 to 64 bytes without blanks, line feeds and colons (profile). Does not
/// allocate. After a failed put, nothing more is written.
pub fn write_grid<W: Sink>(out: &mut W, block: &mut OutputBlock, map: &CellMap, null_text: &[u8])
    requires { length null_text.now ≤ 64 }
    ensures { IsTextAppendedThroughBlock W.taken W.faults out.old block.old
        (grid_text null_text.now map.now)
        out.new block.new }
{
    write_header_lines_of_region(out, block, map.region());
    write_header_line_of_null_text(out, block, null_text);
    write_lines_of_all_rows(out, block, map, null_text);
}

// Provides the facts that the header lines and the numbers of rows and columns are small. Does nothing at run time.
fn region_text_is_short(region: Region)
    ensures lines { length (header_lines_of_region region) ≤ 256 }
    ensures rows { region.rows ≤ 65535 }
    ensures cols { region.cols ≤ 65535 }
{
    let _ = (region.north(), region.south());
    let _ = (region.east(), region.west());
    let _ = region.rows();
}

/// Writes the grid text of a map to a sink and returns its number of bytes. Passes a few KiB per put. Does not
/// allocate.
///
/// # Errors
///
/// [`WriteFault`] if the sink fails; exactly the first `written` bytes of the text were written, and not all of it.
pub fn write_map<W: Sink>(map: &CellMap, null_text: &[u8], out: &mut W) -> Result<u64, WriteFault>
    requires null { IsValidNullText null_text.now }
    ensures ok { OnOk result
        (W.taken out.new ≡ append_if_known (W.taken out.old) (grid_text null_text.now map.now)) }
    ensures length { IfOk result (λ n. n ≡ length (grid_text null_text.now map.now)) }
    ensures err { IfErr result (λ fault. W.taken out.new
        ≡ append_if_known (W.taken out.old) (take fault.written
        (grid_text null_text.now map.now))) }
    ensures short { IfErr result (λ fault. fault.written
        < length (grid_text null_text.now map.now)) }
    ensures faults { W.faults out.new ≡ faults_after_put (W.faults out.old) (is_err result) }
{
    region_text_is_short(map.region());
    map.prove_cells_are_in_range();
    let mut block = OutputBlock::new();
    write_grid(out, &mut block, map, null_text);
    block.empty(out);
    match block.outcome() {
        Ok(()) => Ok(block.written()),
        Err(fault) => Err(fault),
    }
}
