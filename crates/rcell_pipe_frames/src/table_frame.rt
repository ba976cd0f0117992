//! Writes the frame of a table.

ghost use Rattle.std.specs.Prelude.{◌≡◌, ◌<◌, All, [], length, map, flat_map, codes, IfSome, if◌then◌else◌};
ghost use Rattle.std.specs.List.{zip};
ghost use Rattle.cell_core_devices.specs.Blocks.{IsTextAppendedThroughBlock};
ghost use Rattle.cell_stats.specs.TableText.{label_of_cell, table_entries_to_print};
ghost use Rattle.rcell.specs.Output.{table_format_of_stats_options};
ghost use Rattle.rcell_pipe_frames.specs.Frames.{map_name_at_place, table_frame};
ghost use Rattle.rcell_pipe_frames.specs.FrameBytes.{eight_bytes_of_number, length_and_text_bytes, table_frame_head_bytes, asked_counts_bytes, cell_bytes_of_combinations, table_frame_bytes};
ghost use Rattle.rcell_pipe_frames.specs.parts.CellLabels.{cell_labels_bytes};

use crate::bytes::{
    one_if_true_else_zero, push_cells_in_four_bytes, push_eight_byte_number, push_length_and_text,
};
use cell_core::block::OutputBlock;
use cell_core::cell::Cell;
use cell_core::shelf::Shelf;
use cell_core::sink::Sink;
use cell_stats::printing::label_of_cell;
use cell_stats::table::{Listing, Table};
use rcell_script::statement::StatsOptions;

// Returns the entries of a table that are printed.
fn entries_to_print<'a>(table: &'a Table, options: &StatsOptions) -> Listing<'a>
    requires { IfSome options.now.after (λ k. length k ≡ table.now.width) }
    ensures { result ≡ table_entries_to_print options.now.after table.now.pairs }
{
    match &options.after {
        Some(combo) => table.after(combo),
        None => table.all(),
    }
}

// Counts the entries.
fn count_entries(entries: Listing<'_>) -> u64
    requires { length entries < 18446744073709551616 }
    ensures { result ≡ length entries.entry }
{
    let mut count = 0;
    for entry in entries {
        count += 1;
    }
    count
}

// Writes the counts of entries.
fn push_counts<W: Sink>(out: &mut W, block: &mut OutputBlock, entries: Listing<'_>)
    ensures { IsTextAppendedThroughBlock W.taken W.faults out.old block.old
        (flat_map (λ pair. eight_bytes_of_number pair.1) entries.entry) out.new block.new }
{
    for entry in entries {
        push_eight_byte_number(out, block, entry.count);
    }
}

// Writes the cells of entries.
fn push_combinations<W: Sink>(out: &mut W, block: &mut OutputBlock, entries: Listing<'_>)
    ensures { IsTextAppendedThroughBlock W.taken W.faults out.old block.old
        (cell_bytes_of_combinations entries.entry) out.new block.new }
{
    for entry in entries {
        push_cells_in_four_bytes(out, block, entry.combo.cells());
    }
}

/// Writes the labels of a combination's cells.
pub(crate) fn push_cell_labels<W: Sink>(
    out: &mut W,
    block: &mut OutputBlock,
    shelf: &Shelf,
    places: &[usize],
    cells: &[Cell],
)
    requires within { All (λ place. place < length shelf.now.maps) places.now }
    requires width { length cells.now ≡ length places.now }
    ensures { IsTextAppendedThroughBlock W.taken W.faults out.old block.old
        (flat_map (λ p. length_and_text_bytes (label_of_cell shelf.now.maps p.0 p.1))
        (zip places.now cells.now))
        out.new block.new }
{
    for i in 0..cells.len() {
        push_length_and_text(out, block, label_of_cell(shelf, places[i], cells[i]));
    }
}

// Writes the names of maps.
fn push_shelf_map_names<W: Sink>(
    out: &mut W,
    block: &mut OutputBlock,
    shelf: &Shelf,
    places: &[usize],
)
    requires { All (λ place. place < length shelf.now.maps) places.now }
    ensures { IsTextAppendedThroughBlock W.taken W.faults out.old block.old
        (flat_map (λ place. length_and_text_bytes (map_name_at_place shelf.now place)) places.now)
        out.new
        block.new }
{
    for place in places {
        push_length_and_text(out, block, shelf.name(*place).bytes());
    }
}

// Writes the labels of the entries' cells.
fn push_labels<W: Sink>(
    out: &mut W,
    block: &mut OutputBlock,
    shelf: &Shelf,
    places: &[usize],
    entries: Listing<'_>,
)
    requires within { All (λ place. place < length shelf.now.maps) places.now }
    requires width { All (λ pair. length pair.0 ≡ length places.now) entries }
    ensures { IsTextAppendedThroughBlock W.taken W.faults out.old block.old
        (cell_labels_bytes shelf.now.maps places.now entries.entry) out.new block.new }
{
    for entry in entries {
        push_cell_labels(out, block, shelf, places, entry.combo.cells());
    }
}

/// Writes the head of a table's frame: its four letters, and the fields that precede the entries.
pub(crate) fn push_table_frame_head<W: Sink>(
    out: &mut W,
    block: &mut OutputBlock,
    letters: &[u8],
    line: u64,
    shelf: &Shelf,
    places: &[usize],
    entries: u64,
    counts: bool,
    options: &StatsOptions,
)
    requires { All (λ place. place < length shelf.now.maps) places.now }
    ensures { IsTextAppendedThroughBlock W.taken W.faults out.old block.old
        (table_frame_head_bytes letters.now line entries
        (record (table_format_of_stats_options options.now) { counts = counts })
        (map (map_name_at_place shelf.now) places.now))
        out.new block.new }
{
    block.push(out, letters);
    push_eight_byte_number(out, block, line);
    push_eight_byte_number(out, block, entries);
    push_eight_byte_number(out, block, places.len() as u64);
    let counts = one_if_true_else_zero(counts);
    let labels = one_if_true_else_zero(options.labels);
    block.push(out, &[counts, labels, options.separator]);
    push_length_and_text(out, block, options.null_text.bytes());
    push_shelf_map_names(out, block, shelf, places);
}

// Writes the counts of entries, if the options ask for counts.
fn push_asked_counts<W: Sink>(
    out: &mut W,
    block: &mut OutputBlock,
    options: &StatsOptions,
    entries: Listing<'_>,
)
    ensures { IsTextAppendedThroughBlock W.taken W.faults out.old block.old
        (asked_counts_bytes (table_format_of_stats_options options.now) entries.entry) out.new
        block.new }
{
    if options.counts {
        push_counts(out, block, entries);
    }
}

// Writes the labels of the entries' cells, if the options ask for labels.
fn push_asked_labels<W: Sink>(
    out: &mut W,
    block: &mut OutputBlock,
    options: &StatsOptions,
    shelf: &Shelf,
    places: &[usize],
    entries: Listing<'_>,
)
    requires within { All (λ place. place < length shelf.now.maps) places.now }
    requires width { All (λ pair. length pair.0 ≡ length places.now) entries }
    ensures { IsTextAppendedThroughBlock W.taken W.faults out.old block.old
        (if options.now.labels then cell_labels_bytes shelf.now.maps places.now entries.entry else [])
        out.new block.new }
{
    if options.labels {
        push_labels(out, block, shelf, places, entries);
    }
}

/// Writes the frame of a table over the maps at these indices.
pub fn push_table_frame<W: Sink>(
    out: &mut W,
    block: &mut OutputBlock,
    line: u64,
    shelf: &Shelf,
    places: &[usize],
    table: &Table,
    options: &StatsOptions,
)
    requires within { All (λ place. place < length shelf.now.maps) places.now }
    requires width { table.now.width ≡ length places.now }
    requires after { IfSome options.now.after (λ k. length k ≡ length places.now) }
    ensures { IsTextAppendedThroughBlock W.taken W.faults out.old block.old
        (table_frame_bytes (codes "TABL") (table_frame shelf.now line places.now
        (table_format_of_stats_options options.now) (table_entries_to_print options.now.after
        table.now.pairs)))
        out.new block.new }
{
    let _len = table.len();
    let _width = table.width();
    let count = count_entries(entries_to_print(table, options));
    push_table_frame_head(
        out,
        block,
        b"TABL",
        line,
        shelf,
        places,
        count,
        options.counts,
        options,
    );
    push_asked_counts(out, block, options, entries_to_print(table, options));
    push_combinations(out, block, entries_to_print(table, options));
    push_asked_labels(
        out,
        block,
        options,
        shelf,
        places,
        entries_to_print(table, options),
    );
}
