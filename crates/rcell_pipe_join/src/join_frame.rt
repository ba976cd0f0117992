//! Writes the frames of a numbering, of sums, of the sums of patch tables, and of joined patches.

ghost use Rattle.std.specs.Prelude.{flat_map, unwrap_or};
ghost use Rattle.cell_core_devices.specs.Blocks.{IsTextAppendedThroughBlock};
ghost use Rattle.rcell_pipe_frames.specs.FrameBytes.{cell_bytes_of_combinations, eight_bytes_of_number};
ghost use Rattle.rcell_pipe_join.specs.JoinFrames.{joined_patches_bytes, numbered_patch_bytes, numbering_bytes, patch_number_run_bytes, patch_sums_bytes, table_sums_bytes};

use cell_core::block::OutputBlock;
use cell_core::sink::Sink;
use cell_join_numbers::stretch::ConsecutiveClumps;
use cell_patches::patch::Patch;
use cell_stats_combinations::combination::Combo;
use rcell_pipe_frames::bytes::{push_cells_in_four_bytes, push_eight_byte_number};
use rcell_pipe_frames::patches_frame::push_patch_measures;
use std::collections::BTreeMap;

// Writes a run.
fn push_patch_number_run<W: Sink>(out: &mut W, block: &mut OutputBlock, run: ConsecutiveClumps)
    ensures { IsTextAppendedThroughBlock W.taken W.faults out.old block.old
        (patch_number_run_bytes run) out.new block.new }
{
    push_eight_byte_number(out, block, run.tile);
    push_eight_byte_number(out, block, run.first);
    push_eight_byte_number(out, block, run.last);
    push_eight_byte_number(out, block, run.number);
}

// Writes each run.
fn push_patch_number_runs<W: Sink>(out: &mut W, block: &mut OutputBlock, runs: &[ConsecutiveClumps])
    ensures { IsTextAppendedThroughBlock W.taken W.faults out.old block.old
        (flat_map patch_number_run_bytes runs.now)
        out.new block.new }
{
    for run in runs {
        push_patch_number_run(out, block, *run);
    }
}

/// Writes the frame with the number of patches of the full map, and the runs.
pub(crate) fn push_numbering<W: Sink>(
    out: &mut W,
    block: &mut OutputBlock,
    patches: u64,
    runs: &[ConsecutiveClumps],
)
    ensures { IsTextAppendedThroughBlock W.taken W.faults out.old block.old
        (numbering_bytes patches runs.now)
        out.new block.new }
{
    block.push(out, b"JOIN");
    push_eight_byte_number(out, block, patches);
    push_eight_byte_number(out, block, runs.len() as u64);
    push_patch_number_runs(out, block, runs);
}

// Writes the count of each entry.
fn push_counts<W: Sink>(out: &mut W, block: &mut OutputBlock, entries: &[(Combo, u64)])
    ensures { IsTextAppendedThroughBlock W.taken W.faults out.old block.old
        (flat_map (λ entry. eight_bytes_of_number entry.1) entries.now) out.new block.new }
{
    for entry in entries {
        push_eight_byte_number(out, block, entry.1);
    }
}

// Writes the cells of each entry.
fn push_combinations<W: Sink>(out: &mut W, block: &mut OutputBlock, entries: &[(Combo, u64)])
    ensures { IsTextAppendedThroughBlock W.taken W.faults out.old block.old
        (cell_bytes_of_combinations entries.now) out.new
        block.new }
{
    for entry in entries {
        push_cells_in_four_bytes(out, block, entry.0.cells());
    }
}

/// Writes the frame with the sums of tables over `width` maps.
pub(crate) fn push_table_sums<W: Sink>(
    out: &mut W,
    block: &mut OutputBlock,
    width: u8,
    entries: &[(Combo, u64)],
)
    ensures { IsTextAppendedThroughBlock W.taken W.faults out.old block.old
        (table_sums_bytes width entries.now) out.new
        block.new }
{
    block.push(out, b"SUMS");
    push_eight_byte_number(out, block, entries.len() as u64);
    push_eight_byte_number(out, block, width as u64);
    push_counts(out, block, entries);
    push_combinations(out, block, entries);
}

// Writes the number of each entry, or 0 for an entry outside patches.
fn push_numbers<W: Sink>(out: &mut W, block: &mut OutputBlock, numbers: &[Option<u64>])
    ensures { IsTextAppendedThroughBlock W.taken W.faults out.old block.old
        (flat_map (λ number. eight_bytes_of_number (unwrap_or number 0)) numbers.now)
        out.new block.new }
{
    for number in numbers {
        push_eight_byte_number(out, block, number.unwrap_or(0));
    }
}

/// Writes the frame with the sums of patch tables over `width` maps.
pub(crate) fn push_patch_sums<W: Sink>(
    out: &mut W,
    block: &mut OutputBlock,
    width: u8,
    numbers: &[Option<u64>],
    entries: &[(Combo, u64)],
)
    ensures { IsTextAppendedThroughBlock W.taken W.faults out.old block.old
        (patch_sums_bytes width numbers.now entries.now) out.new block.new }
{
    block.push(out, b"PSUM");
    push_eight_byte_number(out, block, entries.len() as u64);
    push_eight_byte_number(out, block, width as u64);
    push_numbers(out, block, numbers);
    push_counts(out, block, entries);
    push_combinations(out, block, entries);
}

// Writes a patch of the full map.
fn push_numbered_patch<W: Sink>(out: &mut W, block: &mut OutputBlock, number: u64, patch: &Patch)
    ensures { IsTextAppendedThroughBlock W.taken W.faults out.old block.old
        (numbered_patch_bytes (number, patch.now)) out.new block.new }
{
    push_eight_byte_number(out, block, number);
    push_patch_measures(out, block, patch);
}

// Writes each patch of the full map.
fn push_numbered_patches<W: Sink>(
    out: &mut W,
    block: &mut OutputBlock,
    patches: &BTreeMap<u64, Patch>,
)
    ensures { IsTextAppendedThroughBlock W.taken W.faults out.old block.old
        (flat_map numbered_patch_bytes patches.now.entries) out.new block.new }
{
    for (number, patch) in patches {
        push_numbered_patch(out, block, *number, patch);
    }
}

/// Writes the frame with the patches of the full map.
pub(crate) fn push_joined_patches<W: Sink>(
    out: &mut W,
    block: &mut OutputBlock,
    patches: &BTreeMap<u64, Patch>,
)
    ensures { IsTextAppendedThroughBlock W.taken W.faults out.old block.old
        (joined_patches_bytes patches.now.entries) out.new block.new }
{
    block.push(out, b"PATS");
    push_eight_byte_number(out, block, patches.len() as u64);
    push_numbered_patches(out, block, patches);
}
