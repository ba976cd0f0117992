//! Writes the frame of r.stats -1: the cells of several maps, one combination after another.

ghost use Rattle.std.specs.Prelude.{◌≡◌, ◌<◌, All, [], length, replicate, codes, OnOk, OnErr, if◌then◌else◌};
ghost use Rattle.cell_core_devices.specs.Blocks.{IsTextAppendedThroughBlock};
ghost use Rattle.cell_stats_combinations.specs.LeftOut.{kept_cells};
ghost use Rattle.cell_stats.specs.parts.OfPicks.{HasCellPerPickedMap};
ghost use Rattle.rcell_pipe_frames.specs.Frames.{format_of_single_cell_lines, entries_of_single_printed_cells, table_frame};
ghost use Rattle.rcell_pipe_frames.specs.FrameBytes.{table_frame_bytes};
ghost use Rattle.rcell_pipe_frames.specs.parts.CellEntries.{entry_part_bytes, bytes_of_kept_entry_parts, combinations_of_selected_map_row, combinations_of_selected_maps};

use crate::bytes::push_cells_in_four_bytes;
use crate::null_sink::NullSink;
use crate::table_frame::{push_cell_labels, push_table_frame_head};
use cell_core::block::OutputBlock;
use cell_core::cell::Cell;
use cell_core::memory::Memory;
use cell_core::shelf::Shelf;
use cell_core::sink::Sink;
use cell_stats_combinations::cursor::{
    RowCursor, advance_cursors_and_write_cells, cursors_over_maps, move_cursors_to_row_start,
};
use cell_stats_combinations::selection::TabulatedMaps;
use cell_stats_combinations::skip::{Skip, combination_is_left_out};
use rcell_script::statement::StatsOptions;
use std::alloc::Global;

/// What one pass over the cells writes for each.
#[derive(Clone, Copy)]
pub(crate) enum EntryPart {
    /// One byte, so that the cells can be counted.
    Mark,
    /// The cells of the maps.
    Cells,
    /// The labels of the maps' cells.
    Labels,
}

// Writes one part of an entry.
fn push_entry_part<W: Sink>(
    out: &mut W,
    block: &mut OutputBlock,
    selection: TabulatedMaps<'_, '_>,
    part: EntryPart,
    cells: &[Cell],
)
    requires { HasCellPerPickedMap selection.shelf.now selection.picks.now cells.now }
    ensures { IsTextAppendedThroughBlock W.taken W.faults out.old block.old
        (entry_part_bytes part selection.entry.shelf.now.maps selection.entry.picks.now cells.now)
        out.new block.new }
{
    match part {
        EntryPart::Mark => block.push(out, &[0]),
        EntryPart::Cells => push_cells_in_four_bytes(out, block, cells),
        EntryPart::Labels => push_cell_labels(out, block, selection.shelf, selection.picks, cells),
    }
}

// Writes the entries of a run of equal combinations, or nothing if they are left out.
fn push_run_of_equal_entries<W: Sink>(
    out: &mut W,
    block: &mut OutputBlock,
    selection: TabulatedMaps<'_, '_>,
    part: EntryPart,
    cells: &[Cell],
    count: u32,
)
    requires { HasCellPerPickedMap selection.shelf.now selection.picks.now cells.now }
    ensures { IsTextAppendedThroughBlock W.taken W.faults out.old block.old
        (bytes_of_kept_entry_parts part selection.entry
        (replicate count cells.now)) out.new block.new }
{
    if combination_is_left_out(selection.skip, cells) {
        return;
    }
    for entry in 0..count {
        push_entry_part(out, block, selection, part, cells);
    }
}

// Writes the entries of a row.
#[tactic(auto, using(cell_stats::proofs::CellsLemmas::stands_none, cell_stats::proofs::CellsLemmas::stands_picks, cell_stats::proofs::CellsLemmas::stands_fits, cell_stats::proofs::CellsLemmas::stands_cells, cell_stats::proofs::CellsLemmas::stands_smaller))]
fn push_row_entries<'a, W: Sink>(
    out: &mut W,
    block: &mut OutputBlock,
    selection: TabulatedMaps<'a, '_>,
    part: EntryPart,
    row: u32,
    cursors: &mut [RowCursor<'a>],
    cells: &mut [Cell],
)
    requires picks { HasCellPerPickedMap selection.shelf.now selection.picks.now cells.old }
    requires row_in_range { row < selection.shelf.now.region.rows }
    requires cursors { length cursors.old ≡ length selection.picks.now }
    ensures { IsTextAppendedThroughBlock W.taken W.faults out.old block.old
        (bytes_of_kept_entry_parts part selection.entry
        (combinations_of_selected_map_row selection.entry row))
        out.new block.new }
{
    let cols = selection.shelf.region().cols();
    move_cursors_to_row_start(cursors, selection.shelf, selection.picks, row);
    let mut col = 0;
    let mut count = advance_cursors_and_write_cells(cursors, 0, cols, cells);
    while col < cols {
        push_run_of_equal_entries(out, block, selection, part, cells, count);
        col += count;
        count = advance_cursors_and_write_cells(cursors, count, cols - col, cells);
    }
}

// Writes the entries of all cells, row by row, from the top left.
fn push_map_rows<'a, W: Sink>(
    out: &mut W,
    block: &mut OutputBlock,
    selection: TabulatedMaps<'a, '_>,
    part: EntryPart,
    cursors: &mut [RowCursor<'a>],
    cells: &mut [Cell],
)
    requires picks { HasCellPerPickedMap selection.shelf.now selection.picks.now cells.old }
    requires cursors { length cursors.old ≡ length selection.picks.now }
    ensures all { IsTextAppendedThroughBlock W.taken W.faults out.old block.old
        (bytes_of_kept_entry_parts part selection.entry
        (combinations_of_selected_maps selection.entry))
        out.new block.new }
    ensures cursors { length cursors.new ≡ length cursors.old }
    ensures cells { length cells.new ≡ length cells.old }
{
    for row in 0..selection.shelf.region().rows() {
        if block.has_failed() {
            return;
        }
        push_row_entries(out, block, selection, part, row, cursors, cells);
    }
}

// Counts the cells that are not left out, in one pass over the maps.
fn count_kept_cells_in_one_pass<'a>(
    selection: TabulatedMaps<'a, '_>,
    cursors: &mut [RowCursor<'a>],
    cells: &mut [Cell],
) -> u64
    requires picks { HasCellPerPickedMap selection.shelf.now selection.picks.now cells.old }
    requires cursors { length cursors.old ≡ length selection.picks.now }
    ensures count { result
        ≡ length (kept_cells selection.entry.skip (combinations_of_selected_maps selection.entry)) }
    ensures cursors { length cursors.new ≡ length cursors.old }
    ensures cells { length cells.new ≡ length cells.old }
{
    let region = selection.shelf.region();
    let _rows = region.rows();
    let _cols = region.cols();
    let mut none = NullSink::new();
    let mut block = OutputBlock::new();
    push_map_rows(
        &mut none,
        &mut block,
        selection,
        EntryPart::Mark,
        cursors,
        cells,
    );
    block.empty(&mut none);
    block.written()
}

// Counts the cells that are not left out. Without `-n` or `-N` this needs no pass over the maps.
fn count_kept_cells<'a>(
    selection: TabulatedMaps<'a, '_>,
    cursors: &mut [RowCursor<'a>],
    cells: &mut [Cell],
) -> u64
    requires picks { HasCellPerPickedMap selection.shelf.now selection.picks.now cells.old }
    requires cursors { length cursors.old ≡ length selection.picks.now }
    ensures count { result
        ≡ length (kept_cells selection.entry.skip (combinations_of_selected_maps selection.entry)) }
    ensures cursors { length cursors.new ≡ length cursors.old }
    ensures cells { length cells.new ≡ length cells.old }
{
    let region = selection.shelf.region();
    let all = region.rows() as u64 * region.cols() as u64;
    match selection.skip {
        Skip::Nothing => all,
        _ => count_kept_cells_in_one_pass(selection, cursors, cells),
    }
}

// Writes the labels of all cells, if the options ask for labels.
fn push_asked_labels<'a, W: Sink>(
    out: &mut W,
    block: &mut OutputBlock,
    selection: TabulatedMaps<'a, '_>,
    labels: bool,
    cursors: &mut [RowCursor<'a>],
    cells: &mut [Cell],
)
    requires picks { HasCellPerPickedMap selection.shelf.now selection.picks.now cells.old }
    requires cursors { length cursors.old ≡ length selection.picks.now }
    ensures { IsTextAppendedThroughBlock W.taken W.faults out.old block.old
        (if labels then bytes_of_kept_entry_parts EntryPart.Labels selection.entry
        (combinations_of_selected_maps selection.entry)
        else []) out.new block.new }
{
    if labels {
        push_map_rows(out, block, selection, EntryPart::Labels, cursors, cells);
    }
}

// Writes the frame. The buffers hold a cursor and a cell for each map.
fn push_single_cells_with_buffers<'a, W: Sink>(
    out: &mut W,
    block: &mut OutputBlock,
    line: u64,
    shelf: &'a Shelf,
    places: &[usize],
    options: &StatsOptions,
    cursors: &mut [RowCursor<'a>],
    cells: &mut [Cell],
)
    requires picks { HasCellPerPickedMap shelf.now places.now cells.old }
    requires cursors { length cursors.old ≡ length places.now }
    ensures { IsTextAppendedThroughBlock W.taken W.faults out.old block.old
        (table_frame_bytes (codes "CELL") (table_frame shelf.now line places.now
        (format_of_single_cell_lines options.now)
        (entries_of_single_printed_cells shelf.now places.now options.now)))
        out.new block.new }
{
    let selection = TabulatedMaps {
        shelf,
        picks: places,
        skip: options.skip,
    };
    let count = count_kept_cells(selection, cursors, cells);
    push_table_frame_head(
        out, block, b"CELL", line, shelf, places, count, false, options,
    );
    push_map_rows(out, block, selection, EntryPart::Cells, cursors, cells);
    push_asked_labels(out, block, selection, options.labels, cursors, cells);
}

/// Writes the frame of r.stats -1. Allocates all memory before it writes the first byte.
pub fn push_frame_of_single_cells<W: Sink>(
    alloc: Global,
    out: &mut W,
    block: &mut OutputBlock,
    line: u64,
    shelf: &Shelf,
    places: &[usize],
    options: &StatsOptions,
) -> Result<(), Memory>
    requires within { All (λ place. place < length shelf.now.maps) places.now }
    requires some { 0 < length places.now }
    ensures ok { OnOk result (IsTextAppendedThroughBlock W.taken W.faults out.old block.old
        (table_frame_bytes (codes "CELL") (table_frame shelf.now line places.now
        (format_of_single_cell_lines options.now)
        (entries_of_single_printed_cells shelf.now places.now options.now)))
        out.new block.new) }
    ensures err { OnErr result ((out.new ≡ out.old) × (block.new ≡ block.old)) }
{
    let Ok(mut cursors) = cursors_over_maps(alloc, shelf, places) else {
        return Err(Memory);
    };
    let Ok(mut cells) = vec![in alloc; Cell::null(); places.len()] else {
        return Err(Memory);
    };
    push_single_cells_with_buffers(
        out,
        block,
        line,
        shelf,
        places,
        options,
        cursors.as_mut_slice(),
        cells.as_mut_slice(),
    );
    Ok(())
}
