//! Runs a script over grids, from bytes to bytes.

ghost use Rattle.std.specs.Prelude.{◌≡◌, ◌≢◌, ◌<◌, List, All, length, true, false, IsNone, IfSome, IfOk, IfErr, Some, None, vec_len};
ghost use Rattle.cell_core_devices.specs.Device.{has_failed, faults_after_flush};
ghost use Rattle.cell_core_devices.specs.Supposed.{HoldsForAgreeingContents, content_to_come};
ghost use Rattle.cell_core.specs.Shelf.{ShelfValue};
ghost use Rattle.rcell_script.specs.FittingScripts.{StatementsFitKnownMaps};
ghost use Rattle.rcell_script.specs.declared.statement.Statement.{Statement};
ghost use Rattle.rcell.specs.RunFaults.{IsInputFault, IsFaultInScript, IsFaultBeforeExecution, IsFaultInExecution, FaultNamesOneOfGrids};
ghost use Rattle.rcell.specs.parts.Ends.{Ends, IsOutputAtRunEnd};
ghost use Rattle.rcell.specs.parts.StatementsRead.{ScriptDenotesOnlyStatements, ScriptIsRejectedWithFault};
ghost use Rattle.rcell.specs.Sources.{HoldsForTextsAgreeingWithReads};
ghost use Rattle.rcell.specs.runs.Accepted.{AreGridsAndScriptAccepted};
ghost use Rattle.rcell.specs.runs.Statuses.{exit_status_of_run_fault, exit_status_of_run};
ghost use Rattle.rcell.specs.runs.Endings.{IsFirstFaultOfInput, AreGridsAndScriptRead, IsRunSuccessful, IsRunStoppedDuringExecution};
ghost use Rattle.rcell.specs.runs.Outcomes.{IsSinkStateForRunFault, WritesOutputUnlessStopped};

use crate::execution::{ExecutionStopReason, StoppedExecution, execute};
use crate::loading::{LoadedShelf, load_grids, map_names_on_shelf};
use crate::outcome::{Outcome, OutcomeWithSources, RunFault, exit_status_of_fault};
use crate::script_bytes::read_script;
use cell_core::name::Name;
use cell_core::shelf::Shelf;
use cell_core::sink::Sink;
use cell_core::source::{Asked, Source};
use rcell_script::law::{scripts_have_no_fault, text_denotes_at_most_one_script};
use rcell_script::script_parsing::parse_script;
use rcell_script::statement::Script;
use std::alloc::Global;

// Reads the statements of a script over the maps on a shelf.
fn read_statements<R: Source>(
    alloc: Global,
    shelf: &Shelf,
    script: &mut R,
) -> Result<Script, RunFault>
    ensures read { HoldsForAgreeingContents (content_to_come (R.supposed script.old))
        (content_to_come (R.supposed script.new))
        (λ text. IfOk result (ScriptDenotesOnlyStatements shelf.now.names text)) }
    ensures fits { IfOk result (StatementsFitKnownMaps shelf.now.names) }
    ensures numbered { IfOk result (All (λ s. 0 < s.line)) }
    ensures fault { HoldsForAgreeingContents (content_to_come (R.supposed script.old))
        (content_to_come (R.supposed script.new))
        (λ text. IfErr result (λ f. IsInputFault f
        → ScriptIsRejectedWithFault shelf.now.names text f)) }
    ensures whose { IfErr result IsFaultInScript }
    ensures asked { R.asked script.old ≡ Asked.Going → R.asked script.new ≢ Asked.Again }
{
    let text = match read_script(alloc, script) {
        Ok(text) => text,
        Err(fault) => return Err(fault),
    };
    let Ok(names) = map_names_on_shelf(alloc, shelf) else {
        return Err(RunFault::Memory { line: 0 });
    };
    text_denotes_at_most_one_script();
    scripts_have_no_fault();
    match parse_script(alloc, &text, &names) {
        Ok(script) => Ok(script),
        Err(fault) => Err(RunFault::Script(fault)),
    }
}

// Flushes the sink unless a write failed, and returns the outcome. A failed flush turns a finished run into a failed
// write, and does not change any other outcome.
//
// No clause of `run` mentions that memory ran out. If the remaining statements write nothing, only this contract and a
// test distinguish it from a failed write.
fn flush_sink_and_finish_run<W: Sink>(
    executed: Result<u64, StoppedExecution>,
    out: &mut W,
) -> Outcome
    ensures taken { W.taken out.new ≡ W.taken out.old }
    ensures ends { Ends executed (W.faults out.old) (W.faults out.new) result }
{
    match executed {
        Ok(written) => match out.flush() {
            Ok(()) => Outcome {
                status: 0,
                written,
                fault: None,
            },
            Err(_) => outcome_of_rejected_run(RunFault::Write, written),
        },
        Err(stopped) => match stopped.stop {
            ExecutionStopReason::Memory { line } => {
                let _ = out.flush();
                outcome_of_rejected_run(RunFault::Memory { line }, stopped.written)
            }
            ExecutionStopReason::Write => outcome_of_rejected_run(RunFault::Write, stopped.written),
        },
    }
}

// Executes the statements, and flushes the sink unless a write failed.
fn execute_and_flush<W: Sink>(
    alloc: Global,
    mut shelf: Shelf,
    script: &Script,
    out: &mut W,
) -> Outcome
    requires fits { StatementsFitKnownMaps shelf.names script.now }
    requires numbered { All (λ t. 0 < t.line) script.now }
    ensures { IsOutputAtRunEnd shelf script.now (W.taken out.old) (W.taken out.new)
        (W.faults out.old)
        (W.faults out.new) result }
{
    let executed = execute(alloc, &mut shelf, script.statements(), out);
    flush_sink_and_finish_run(executed, out)
}

fn outcome_of_rejected_run(fault: RunFault, written: u64) -> Outcome
    ensures { result
        ≡ record {
          status = exit_status_of_run_fault fault;
          written = written;
          fault = Some
              fault;
        } }
{
    Outcome {
        status: exit_status_of_fault(fault),
        written,
        fault: Some(fault),
    }
}

// Returns the outcome of a run that is rejected before execution, and its sources.
fn rejected_run_with_sources<R>(fault: RunFault, script: R, grids: Vec<R>) -> OutcomeWithSources<R>
    ensures { result ≡ record {
      outcome = record { status = exit_status_of_run_fault fault; written = 0; fault = Some fault };
      script = script;
      grids = grids;
    } }
{
    OutcomeWithSources {
        outcome: outcome_of_rejected_run(fault, 0),
        script,
        grids,
    }
}

/// Runs a script over grids, and writes its output.
///
/// First reads all grids, in order, then the script, and only then executes the first statement. For each statement,
/// all memory is allocated before the first byte is written. If the script is accepted and no write fails, the sink is
/// flushed once at the end. The sources are returned after their last reads.
///
/// The clauses about texts hold for all contents with which the reads agreed (`HoldsForTextsAgreeingWithReads`), so also for files.
pub fn run<R: Source + Drop, W: Sink>(
    alloc: Global,
    mut script: R,
    grids: Vec<(Name, R)>,
    out: &mut W,
) -> OutcomeWithSources<R>
    requires { 0 < vec_len grids }
    // Without an error, the sink has accepted exactly the output, and `written` is the output's length.
    ensures done { HoldsForTextsAgreeingWithReads R.supposed grids.items script result
        (λ named text. IsNone result.outcome.fault
        → IsRunSuccessful named text (W.taken out.old) (W.taken out.new) result.outcome.written) }
    // If the error is in the grids or the script, it is the first error.
    ensures refused { HoldsForTextsAgreeingWithReads R.supposed grids.items script result
        (λ named text. IfSome result.outcome.fault
        (λ f. IsInputFault f → IsFirstFaultOfInput named text f)) }
    // If a run is rejected before execution, the sink is unchanged: nothing is written to it, and it is not flushed.
    ensures untouched { IfSome result.outcome.fault
        (λ f. IsFaultBeforeExecution f → (out.new ≡ out.old) × (result.outcome.written ≡ 0)) }
    // If memory runs out, the full output of the statements before the reported one is written. If the sink fails, a
    // prefix of the output is written. In both cases, `written` is its length.
    ensures stopped { HoldsForTextsAgreeingWithReads R.supposed grids.items script result
        (λ named text. IfSome result.outcome.fault (λ f. IsFaultInExecution f
        → IsRunStoppedDuringExecution named text (W.taken out.old)
        (W.taken out.new) result.outcome.written f)) }
    ensures status { result.outcome.status ≡ exit_status_of_run result.outcome.fault }
    // An error in a grid names one of the given grids. If memory runs out while a grid or the script is read, the line
    // is 0.
    ensures reported { IfSome result.outcome.fault (FaultNamesOneOfGrids (length grids.items)) }
    // If the status is 0, no call of the sink failed, and the sink was flushed once. If the error is `Write`, a call
    // failed, in this run or before.
    ensures sound { result.outcome.status ≡ 0
        → W.faults out.new ≡ faults_after_flush (W.faults out.old) false }
    ensures write { result.outcome.fault ≡ Some RunFault.Write
        → has_failed (W.faults out.new) ≡ true }
    // If `Write` is reported and no write failed, only the flush at the end failed, and the sink has accepted the full
    // output.
    ensures whole { HoldsForTextsAgreeingWithReads R.supposed grids.items script result
        (λ named text. result.outcome.fault ≡ Some RunFault.Write
        → (W.faults out.new).refused ≡ false
        → IsRunSuccessful named text (W.taken out.old) (W.taken out.new) result.outcome.written) }
    // If a run is not rejected before execution, it flushes its sink once, unless a write failed. That error is
    // reported as `Write`.
    ensures first { IfSome result.outcome.fault IsFaultInExecution
        → IsSinkStateForRunFault result.outcome.fault (W.faults out.old) (W.faults out.new) }
    // If a script over grids of one region is accepted, memory suffices and the sink does not fail, exactly the output
    // of its statements is written.
    ensures headline { HoldsForTextsAgreeingWithReads R.supposed grids.items script result
        (λ named text. (shelf : ShelfValue) (statements : List Statement)
        → AreGridsAndScriptAccepted named text shelf statements
        → WritesOutputUnlessStopped shelf statements (W.taken out.old) (W.taken out.new)
        (has_failed (W.faults out.new)) result.outcome) }
    // Any statements as which the script can be read over a shelf have the same guarantee.
    ensures complete { HoldsForTextsAgreeingWithReads R.supposed grids.items script result
        (λ named text. (shelf : ShelfValue) (statements : List Statement)
        → AreGridsAndScriptRead named text shelf statements
        → WritesOutputUnlessStopped shelf statements (W.taken out.old) (W.taken out.new)
        (has_failed (W.faults out.new)) result.outcome) }
    // No source is read again after its end or a read error, so there is a content with which its reads agreed.
    ensures asked { All (λ g. R.asked g.1 ≡ Asked.Going) grids.items
        → R.asked script ≡ Asked.Going
        → All (λ s. R.asked s ≢ Asked.Again) result.grids.items
        × (R.asked result.script ≢ Asked.Again) }
{
    let LoadedShelf { shelf, sources } = load_grids(alloc, grids);
    let shelf = match shelf {
        Ok(shelf) => shelf,
        Err(fault) => return rejected_run_with_sources(fault, script, sources),
    };
    match read_statements(alloc, &shelf, &mut script) {
        Ok(statements) => OutcomeWithSources {
            outcome: execute_and_flush(alloc, shelf, &statements, out),
            script,
            grids: sources,
        },
        Err(fault) => rejected_run_with_sources(fault, script, sources),
    }
}
