//! Does the work of the program in a process.

ghost use Rattle.std.specs.Prelude.{◌≡◌, ◌≢◌, ◌∷◌, ℕ, List, All, false, drop, Some, None, IfSome, IsSomeAnd, codes};
ghost use Rattle.cell_core.specs.Shelf.{ShelfValue};
ghost use Rattle.cell_core_devices.specs.Device.{ComingBytes, has_failed};
ghost use Rattle.rcell.specs.Sources.{Named};
ghost use Rattle.rcell.specs.runs.Accepted.{AreGridsAndScriptAccepted};
ghost use Rattle.rcell_command.specs.Processes.{HasOnlyReportedError};
ghost use Rattle.rcell_program.specs.CommandLine.{grid_paths_in_arguments, refusal_of_words, script_path_in_arguments};
ghost use Rattle.rcell_program.specs.Refusals.{error_place_of_refusal};
ghost use Rattle.rcell_program.specs.Work.{AreContentsOfNamedFiles, IsDoneOverFiles, IsProgramDoneWithoutError, IsWork};
ghost use Rattle.rcell_script.specs.declared.statement.Statement.{Statement};

use crate::command_words::read_request_words;
use crate::opening::open_files;
use crate::refusal::{Refusal, RefusalReport};
use crate::run_report::RunReport;
use crate::worked::FinishedWork;
use cell_core::name::Name;
use cell_core::sink::Sink;
use cell_core::source::Asked;
use rcell::run;
use rcell_command::process::Process;
use rcell_command::reported::report_error;
use std::alloc::Global;

// The program's name in error lines.
const PROGRAM_NAME: &str = "rcell";

// Reports an error before a run.
fn refused<P: Process>(
    alloc: Global,
    process: &mut P,
    refusal: Refusal,
    names: &[Name],
) -> FinishedWork<P::File>
    ensures reported { HasOnlyReportedError P.opened P.errors P.failed process.old process.new
        (codes "rcell") (Some (error_place_of_refusal names.now refusal)) result.status }
    ensures ran { result.ran ≡ None }
{
    let status = report_error(process, PROGRAM_NAME, &RefusalReport { refusal, names });
    FinishedWork {
        status,
        names: Vec::new(alloc),
        ran: None,
    }
}

/// Executes the request in the process's arguments. Opens the files that the words name, runs the script over the grids,
/// writes the output to `out`, and reports the error, if any.
pub fn work<P: Process, W: Sink>(
    alloc: Global,
    process: &mut P,
    out: &mut W,
) -> FinishedWork<P::File>
    // The words are the process's arguments. The files that they name were opened, in order. `out` has accepted
    // exactly what a run over these files writes. Standard error contains exactly the line for the error, and the exit
    // status is the error's.
    ensures work { IsWork P.words P.files P.supposed_file P.File.supposed P.opened P.errors
        P.failed process.old process.new W.taken W.faults out.old out.new result }
    // If the exit status is 0, there was a run. For any contents that any file may have, with which the reads of the
    // opened files agreed, `out` has accepted exactly the output for these contents under the returned names.
    ensures files { result.status ≡ 0 → IsSomeAnd result.ran
        (IsDoneOverFiles (P.supposed_file process.old) P.File.supposed result.names.items
        (W.taken out.old) (W.taken out.new)) }
    // No returned source was read after its end or an error, so there are contents with which its reads agreed.
    ensures asked { IfSome result.ran (λ ran.
        All (λ s. P.File.asked s ≢ Asked.Again) ran.grids.items
        × (P.File.asked ran.script ≢ Asked.Again)) }
    // If the words and files are known, a script over grids of one region is accepted, memory suffices and the sink
    // does not fail, exactly the output of its statements is written, standard error is empty, and the status is 0.
    ensures headline { (words : List (List ℕ)) (named : List Named) (text : ComingBytes)
        (shelf : ShelfValue) (statements : List Statement)
        → P.words process.old ≡ Some words → refusal_of_words (drop 1 words) ≡ None
        → AreContentsOfNamedFiles (P.files process.old) (drop 1 words) named text
        → AreGridsAndScriptAccepted named text shelf statements
        → result.status ≢ 3 → has_failed (W.faults out.new) ≡ false
        → IsProgramDoneWithoutError shelf statements (script_path_in_arguments (drop 1 words)
        ∷ grid_paths_in_arguments (drop 1 words))
        (P.opened process.old) (P.opened process.new) (P.errors process.old)
        (P.errors process.new) (W.taken out.old) (W.taken out.new) result.status }
{
    let words = match process.words(alloc, Refusal::Memory, Refusal::Usage) {
        Ok(words) => words,
        Err(refusal) => return refused(alloc, process, refusal, &[]),
    };
    let request = match read_request_words(alloc, &words) {
        Ok(request) => request,
        Err(refusal) => return refused(alloc, process, refusal, &[]),
    };
    let opened = match open_files(alloc, process, &request) {
        Ok(opened) => opened,
        Err(refusal) => return refused(alloc, process, refusal, &request.names),
    };
    let ran = run(alloc, opened.script, opened.grids, out);
    let outcome = ran.outcome;
    let names = request.names.as_slice();
    let status = report_error(process, PROGRAM_NAME, &RunReport { outcome, names });
    FinishedWork {
        status,
        names: request.names,
        ran: Some(ran),
    }
}
