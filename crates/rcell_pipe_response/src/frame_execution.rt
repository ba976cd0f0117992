//! Executes statements in order: a statement that makes a map puts it on the shelf, and any other writes its frame.

ghost use Rattle.std.specs.Prelude.{◌≡◌, ◌<◌, ◌≤◌, All, length, IfSome, OnOk, OnErr, IfErr};
ghost use Rattle.cell_core_devices.specs.Blocks.{IsTextAppendedThroughBlock};
ghost use Rattle.rcell_script.specs.FittingCommands.{CommandFitsKnownMaps};
ghost use Rattle.rcell_script.specs.FittingScripts.{StatementsFitKnownMaps};
ghost use Rattle.rcell_tile.specs.TileRuns.{AreShelvesAfterCommand, inner_shelf};
ghost use Rattle.rcell_pipe_frames.specs.Frames.{command_frames, stats_frame};
ghost use Rattle.rcell_pipe_frames.specs.FrameBytes.{frame_bytes, frames_bytes};
ghost use Rattle.rcell_pipe_response.specs.parts.FrameExecution.{AreStatementFramesAppended, IsStoppedFrameExecution};

use cell_core::block::OutputBlock;
use cell_core::memory::Memory;
use cell_core::shelf::Shelf;
use cell_core::sink::Sink;
use cell_stats::tallying::tally;
use rcell_pipe_frames::cells_frame::push_frame_of_single_cells;
use rcell_pipe_frames::map_frame::push_grid_frame;
use rcell_pipe_frames::table_frame::push_table_frame;
use rcell_script::statement::{Command, Statement, StatsOptions};
use rcell_tile::making_in_tiles::add_map_made_by_command_to_shelves;
use rcell_tile::run_shelves::RunShelves;
use std::alloc::Global;

/// Why an execution stopped.
#[derive(Clone, Copy, Debug)]
pub(crate) enum FrameExecutionStop {
    /// Memory ran out at the statement of this line.
    Memory { line: u64 },
    /// A write failed.
    Write,
}

/// Returns the maps whose cells are counted and written.
pub(crate) fn maps_without_halo(shelves: &RunShelves) -> &Shelf
    ensures value { result.now ≡ inner_shelf shelves.now }
    ensures names { result.now.names ≡ shelves.now.outer.names }
{
    shelves.inner()
}

// Writes the frame of r.stats. Allocates all memory before it writes the first byte.
fn push_stats_frame<W: Sink>(
    alloc: Global,
    shelf: &Shelf,
    line: u64,
    places: &[usize],
    options: &StatsOptions,
    out: &mut W,
    block: &mut OutputBlock,
) -> Result<(), Memory>
    requires within { All (λ place. place < length shelf.now.maps) places.now }
    requires some { 1 ≤ length places.now }
    requires most { length places.now ≤ 16 }
    requires width { IfSome options.now.after (λ k. length k ≡ length places.now) }
    ensures ok { OnOk result (IsTextAppendedThroughBlock W.taken W.faults out.old block.old
        (frame_bytes (stats_frame shelf.now line places.now options.now)) out.new block.new) }
    ensures err { OnErr result ((out.new ≡ out.old) × (block.new ≡ block.old)) }
{
    if options.cells {
        return push_frame_of_single_cells(alloc, out, block, line, shelf, places, options);
    }
    let Ok(table) = tally(alloc, shelf, places, options.skip) else {
        return Err(Memory);
    };
    push_table_frame(out, block, line, shelf, places, &table, options);
    Ok(())
}

// Executes a statement. Allocates all memory before it writes the first byte.
fn execute_statement<W: Sink>(
    alloc: Global,
    shelves: &mut RunShelves,
    statement: &Statement,
    block: &mut OutputBlock,
    out: &mut W,
) -> Result<(), Memory>
    requires { CommandFitsKnownMaps shelves.old.outer.names statement.now.command }
    ensures after { OnOk result
        (AreShelvesAfterCommand shelves.old statement.now.command shelves.new) }
    ensures ok { OnOk result
        (IsTextAppendedThroughBlock W.taken W.faults out.old block.old
        (frames_bytes (command_frames (inner_shelf shelves.old) statement.now.line statement.now.command))
        out.new block.new) }
    ensures err { OnErr result ((out.new ≡ out.old) × (block.new ≡ block.old)) }
{
    let shelf = maps_without_halo(shelves);
    let _maps = shelf.len();
    let line = statement.line;
    match &statement.command {
        Command::Stats { places, options } => {
            push_stats_frame(alloc, shelf, line, places.as_slice(), options, out, block)
        }
        Command::OutAscii { place, null_text } => push_grid_frame(
            alloc,
            out,
            block,
            line,
            null_text.bytes(),
            shelf.name(*place).bytes(),
            shelf.map(*place),
        ),
        Command::Mapcalc { .. } => {
            add_map_made_by_command_to_shelves(alloc, shelves, &statement.command)
        }
        Command::Reclass { .. } => {
            add_map_made_by_command_to_shelves(alloc, shelves, &statement.command)
        }
        Command::Clump { .. } => {
            add_map_made_by_command_to_shelves(alloc, shelves, &statement.command)
        }
    }
}

/// Executes statements in order, and writes their frames.
///
/// # Errors
///
/// Returns [`FrameExecutionStop::Memory`] with the line of the first statement for which memory ran out, and which has written
/// nothing, or [`FrameExecutionStop::Write`] if the sink fails.
pub(crate) fn execute_statements_into_frames<W: Sink>(
    alloc: Global,
    shelves: &mut RunShelves,
    statements: &[Statement],
    block: &mut OutputBlock,
    out: &mut W,
) -> Result<(), FrameExecutionStop>
    requires { StatementsFitKnownMaps shelves.old.outer.names statements.now }
    ensures ok { OnOk result (AreStatementFramesAppended W.taken W.faults shelves.old
        statements.now out.old block.old out.new block.new shelves.new) }
    ensures err { IfErr result
        (IsStoppedFrameExecution W.taken W.faults shelves.old statements.now out.old block.old
        out.new block.new) }
{
    for statement in statements {
        match execute_statement(alloc, shelves, statement, block, out) {
            Ok(()) => block.empty(out),
            Err(_) => {
                return Err(FrameExecutionStop::Memory {
                    line: statement.line,
                });
            }
        }
        if block.has_failed() {
            return Err(FrameExecutionStop::Write);
        }
    }
    Ok(())
}
