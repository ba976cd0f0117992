//! Prints tables and cells.

ghost use Rattle.std.specs.Prelude.{◌≡◌, ◌<◌, ◌∷◌, length, IfSome};
ghost use Rattle.std.specs.List.{join_with_byte};
ghost use Rattle.std.specs.Option.{option_map};
ghost use Rattle.cell_core_devices.specs.Blocks.{IsTextAppendedThroughBlock};
ghost use Rattle.cell_stats_combinations.specs.Combinations.{ArePicksOnShelf};
ghost use Rattle.cell_stats.specs.TableText.{cell_line, combination_fields, count_fields, label_of_cell, entry_line, table_entries_to_print, table_text};
ghost use Rattle.cell_stats.specs.parts.OfPicks.{HasCellPerPickedMap};
ghost use Rattle.cell_stats.specs.parts.Preceded.{separator_cell_and_label_text, text_of_cells_after_first, cell_and_label_text, texts_each_after_byte};

use crate::format::TableFormat;
use crate::table::Table;
use cell_core::block::OutputBlock;
use cell_core::cell::Cell;
use cell_core::printed_cell::write_cell;
use cell_core::shelf::Shelf;
use cell_core::sink::Sink;
use cell_stats_combinations::combination::Combo;
use itoa::Buffer;

/// Returns the label of a cell of the map at index `place`: `no data` for null, empty if its category has none.
pub fn label_of_cell<'a>(shelf: &'a Shelf, place: usize, cell: Cell) -> &'a [u8]
    requires { place < length shelf.now.maps }
    ensures { result.now ≡ label_of_cell shelf.now.maps place cell }
{
    match cell.get() {
        None => b"no data",
        Some(category) => match shelf.map(place).label(category) {
            Some(label) => label,
            None => b"",
        },
    }
}

// Writes a separator and a field.
fn write_separator_and_field<W: Sink>(
    out: &mut W,
    block: &mut OutputBlock,
    separator: u8,
    field: &[u8],
)
    ensures { IsTextAppendedThroughBlock W.taken W.faults out.old block.old (separator
        ∷ field.now) out.new block.new }
{
    block.push(out, &[separator]);
    block.push(out, field);
}

// Writes a cell of a map, followed by its label if labels are printed.
fn write_cell_and_label<W: Sink>(
    out: &mut W,
    block: &mut OutputBlock,
    shelf: &Shelf,
    place: usize,
    cell: Cell,
    format: &TableFormat,
)
    requires { place < length shelf.now.maps }
    ensures { IsTextAppendedThroughBlock W.taken W.faults out.old block.old
        (cell_and_label_text format.now shelf.now.maps place cell) out.new block.new }
{
    write_cell(out, block, cell, format.null_text());
    if !format.labels() {
        return;
    }
    write_separator_and_field(
        out,
        block,
        format.separator(),
        label_of_cell(shelf, place, cell),
    );
}

// Writes a separator and a cell of a map, followed by its label if labels are printed.
fn write_separator_cell_and_label<W: Sink>(
    out: &mut W,
    block: &mut OutputBlock,
    shelf: &Shelf,
    place: usize,
    cell: Cell,
    format: &TableFormat,
)
    requires { place < length shelf.now.maps }
    ensures { IsTextAppendedThroughBlock W.taken W.faults out.old block.old
        (separator_cell_and_label_text format.now shelf.now.maps (place, cell)) out.new block.new }
{
    block.push(out, &[format.separator()]);
    write_cell_and_label(out, block, shelf, place, cell, format);
}

// Writes the cells of all maps except the first, each after a separator.
fn write_cells_after_first<W: Sink>(
    out: &mut W,
    block: &mut OutputBlock,
    shelf: &Shelf,
    picks: &[usize],
    cells: &[Cell],
    format: &TableFormat,
)
    requires picked { ArePicksOnShelf shelf.now picks.now }
    requires width { length cells.now ≡ length picks.now }
    ensures { IsTextAppendedThroughBlock W.taken W.faults out.old block.old
        (text_of_cells_after_first format.now shelf.now.maps picks.now cells.now) out.new
        block.new }
{
    for i in 0..cells.len() {
        write_separator_cell_and_label(out, block, shelf, picks[i], cells[i], format);
    }
}

// Writes the cells of a combination, one per map.
fn write_combination<W: Sink>(
    out: &mut W,
    block: &mut OutputBlock,
    shelf: &Shelf,
    picks: &[usize],
    cells: &[Cell],
    format: &TableFormat,
)
    requires { HasCellPerPickedMap shelf.now picks.now cells.now }
    ensures { IsTextAppendedThroughBlock W.taken W.faults out.old block.old
        (join_with_byte format.now.separator
        (combination_fields format.now shelf.now.maps picks.now cells.now))
        out.new block.new }
{
    write_cell_and_label(out, block, shelf, picks[0], cells[0], format);
    write_cells_after_first(out, block, shelf, &picks[1..], &cells[1..], format);
}

// Writes a separator and the count, if counts are printed.
fn write_separator_and_count<W: Sink>(
    out: &mut W,
    block: &mut OutputBlock,
    count: u64,
    format: &TableFormat,
)
    ensures { IsTextAppendedThroughBlock W.taken W.faults out.old block.old
        (texts_each_after_byte format.now.separator
        (count_fields format.now count)) out.new block.new }
{
    if !format.counts() {
        return;
    }
    write_separator_and_field(
        out,
        block,
        format.separator(),
        Buffer::new().format(count).as_bytes(),
    );
}

// Writes the line of a combination and its count.
fn write_entry_line<W: Sink>(
    out: &mut W,
    block: &mut OutputBlock,
    shelf: &Shelf,
    picks: &[usize],
    cells: &[Cell],
    count: u64,
    format: &TableFormat,
)
    requires { HasCellPerPickedMap shelf.now picks.now cells.now }
    ensures { IsTextAppendedThroughBlock W.taken W.faults out.old block.old
        (entry_line format.now shelf.now.maps picks.now (cells.now, count)) out.new block.new }
{
    write_combination(out, block, shelf, picks, cells, format);
    write_separator_and_count(out, block, count, format);
    block.push(out, b"\n");
}

// Writes the line of a cell.
pub(crate) fn write_cell_line<W: Sink>(
    out: &mut W,
    block: &mut OutputBlock,
    shelf: &Shelf,
    picks: &[usize],
    cells: &[Cell],
    format: &TableFormat,
)
    requires { HasCellPerPickedMap shelf.now picks.now cells.now }
    ensures { IsTextAppendedThroughBlock W.taken W.faults out.old block.old
        (cell_line format.now shelf.now.maps picks.now cells.now) out.new block.new }
{
    write_combination(out, block, shelf, picks, cells, format);
    block.push(out, b"\n");
}

/// Writes a line for each entry of a table of the picked maps, or only for the entries after a combination. Does not
/// allocate.
///
/// The block keeps the last part of the text. After a failed put, nothing more is written.
pub fn write_table<W: Sink>(
    out: &mut W,
    block: &mut OutputBlock,
    table: &Table,
    after: Option<&Combo>,
    shelf: &Shelf,
    picks: &[usize],
    format: &TableFormat,
)
    requires picked { ArePicksOnShelf shelf.now picks.now }
    requires some { 0 < length picks.now }
    requires width { table.now.width ≡ length picks.now }
    requires after { IfSome after (λ k. length k.now ≡ length picks.now) }
    ensures { IsTextAppendedThroughBlock W.taken W.faults out.old block.old
        (table_text format.now shelf.now.maps picks.now
        (table_entries_to_print (option_map (λ k. k.now) after.entry) table.now.pairs))
        out.new block.new }
{
    let entries = table.printed_entries(after);
    for (combo, count) in entries {
        if block.has_failed() {
            return;
        }
        write_entry_line(out, block, shelf, picks, combo.cells(), *count, format);
    }
}
