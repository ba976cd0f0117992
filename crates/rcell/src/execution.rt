//! Executes statements in order. A statement that makes a map adds it to the shelf; any other writes its text.

ghost use Rattle.std.specs.Prelude.{◌≡◌, OnOk, OnErr, IfOk, IfErr};
ghost use Rattle.cell_core_devices.specs.Device.{faults_after_put};
ghost use Rattle.cell_core_devices.specs.Blocks.{IsTextAppendedThroughBlock};
ghost use Rattle.rcell_script.specs.FittingCommands.{CommandFitsKnownMaps};
ghost use Rattle.rcell_script.specs.FittingScripts.{StatementsFitKnownMaps};
ghost use Rattle.rcell.specs.After.{IsShelfAfterCommand};
ghost use Rattle.rcell.specs.Output.{command_output_text};
ghost use Rattle.rcell.specs.runs.Execution.{is_stopped_by_failed_write, Stops};
ghost use Rattle.rcell.specs.runs.Outcomes.{IsFullOutputWritten};

use crate::making::add_map_made_by_command;
use crate::tables::write_stats;
use cell_ascii::writer::write_grid;
use cell_core::block::OutputBlock;
use cell_core::memory::Memory;
use cell_core::shelf::Shelf;
use cell_core::sink::Sink;
use rcell_script::statement::{Command, Statement};
use std::alloc::Global;

/// Why an execution stopped.
#[derive(Clone, Copy)]
pub enum ExecutionStopReason {
    /// Memory ran out at the statement of this line.
    Memory { line: u64 },
    /// A write failed.
    Write,
}

/// Why an execution stopped, and the number of bytes that the sink accepted.
#[derive(Clone, Copy)]
pub struct StoppedExecution {
    pub stop: ExecutionStopReason,
    pub written: u64,
}

// Builds the result if a write failed after `written` bytes.
fn stopped_by_failed_write(written: u64) -> StoppedExecution
    ensures { result ≡ record { stop = ExecutionStopReason.Write; written = written } }
{
    StoppedExecution {
        stop: ExecutionStopReason::Write,
        written,
    }
}

// Builds the result if memory ran out after `written` bytes.
fn stopped_out_of_memory(line: u64, written: u64) -> StoppedExecution
    ensures { result ≡ record { stop = ExecutionStopReason.Memory line; written = written } }
{
    StoppedExecution {
        stop: ExecutionStopReason::Memory { line },
        written,
    }
}

// Executes a command. Allocates all memory before it writes the first byte.
fn execute_command<W: Sink>(
    alloc: Global,
    shelf: &mut Shelf,
    command: &Command,
    block: &mut OutputBlock,
    out: &mut W,
) -> Result<(), Memory>
    requires { CommandFitsKnownMaps shelf.old.names command.now }
    ensures after { OnOk result (IsShelfAfterCommand shelf.old command.now shelf.new) }
    ensures ok { OnOk result
        (IsTextAppendedThroughBlock W.taken W.faults out.old block.old
        (command_output_text shelf.old command.now)
        out.new block.new) }
    ensures err { OnErr result ((out.new ≡ out.old) × (block.new ≡ block.old)) }
{
    let _maps = shelf.len();
    match command {
        Command::Stats { places, options } => {
            write_stats(alloc, shelf, places.as_slice(), options, block, out)
        }
        Command::OutAscii { place, null_text } => {
            write_grid(out, block, shelf.map(*place), null_text.bytes());
            Ok(())
        }
        Command::Mapcalc { .. } => add_map_made_by_command(alloc, shelf, command),
        Command::Reclass { .. } => add_map_made_by_command(alloc, shelf, command),
        Command::Clump { .. } => add_map_made_by_command(alloc, shelf, command),
    }
}

/// Executes statements in order. Returns the number of bytes that the sink accepted.
///
/// # Errors
///
/// Each error contains the number of bytes that the sink accepted:
///
/// - [`ExecutionStopReason::Memory`] if memory runs out, with the line of the statement, for which nothing is written
/// - [`ExecutionStopReason::Write`] if the sink fails
pub fn execute<W: Sink>(
    alloc: Global,
    shelf: &mut Shelf,
    statements: &[Statement],
    out: &mut W,
) -> Result<u64, StoppedExecution>
    requires { StatementsFitKnownMaps shelf.old.names statements.now }
    ensures ok { IfOk result
        (λ written. IsFullOutputWritten shelf.old statements.now (W.taken out.old)
        (W.taken out.new) written) }
    ensures err { IfErr result
        (λ s. Stops shelf.old statements.now (W.taken out.old) (W.taken out.new) s.written s.stop) }
    ensures faults { W.faults out.new ≡ faults_after_put (W.faults out.old)
        (is_stopped_by_failed_write result) }
{
    let mut block = OutputBlock::new();
    for statement in statements {
        match execute_command(alloc, shelf, &statement.command, &mut block, out) {
            Ok(()) => block.empty(out),
            Err(_) => return Err(stopped_out_of_memory(statement.line, block.written())),
        }
        if block.has_failed() {
            return Err(stopped_by_failed_write(block.written()));
        }
    }
    Ok(block.written())
}
