//! Runs a request and writes the response.

ghost use Rattle.std.specs.Prelude.{ℕ, ◌≡◌, List, [], ◌++◌, length, false, All, Option, Some, None, Result, Ok, IfOk};
ghost use Rattle.std.specs.Option.{option_map};
ghost use Rattle.std.specs.String.{string_bytes};
ghost use Rattle.cell_core_devices.specs.Device.{SinkFaults, append_if_known};
ghost use Rattle.cell_core_devices.specs.Blocks.{capped_byte_count, IsTextAppendedToSink};
ghost use Rattle.rcell_script.specs.FittingScripts.{StatementsFitKnownMaps};
ghost use Rattle.rcell_script.specs.Scripts.{IsScript};
ghost use Rattle.rcell_script.specs.declared.statement.Statement.{Statement};
ghost use Rattle.rcell_script.specs.ScriptTexts.{script_error_text};
ghost use Rattle.rcell_tile.specs.TileRuns.{RunShelvesValue};
ghost use Rattle.rcell_pipe_request.specs.declared.error.RequestError.{RequestError};
ghost use Rattle.rcell_pipe_request.specs.Requests.{RunRequestValue, run_request_as_value};
ghost use Rattle.rcell_pipe_request.specs.Questions.{PatchQuestionValue, question_as_value, questions_as_values};
ghost use Rattle.rcell_pipe_response.specs.declared.frame_run.ResponseForm.TheVariants.{Frames, Text};
ghost use Rattle.rcell_pipe_frames.specs.Frames.{OutputFrame, StatementsGiveFrames};
ghost use Rattle.rcell_pipe_frames.specs.FrameBytes.{response_magic, frames_bytes, response_bytes, run_end_frame_bytes};
ghost use Rattle.rcell_pipe_response.specs.QuestionFrames.{margins_in_tile_at_end, question_has_unknown_map, question_error_after_statements};
ghost use Rattle.rcell_pipe_response.specs.RunEnds.{exit_status_of_pipe_run, IsRunRequestAccepted, IsResponseToRunRequest, end_frame_as_value, halo_fault_of_statements};
ghost use Rattle.rcell_pipe_response.specs.FrameEndings.{run_error_with_sink_state, IsTextSentWithOutcome, Rejected, IsEndOfResponseSent};
ghost use Rattle.rcell_pipe_response.specs.parts.Flushed.{IsSinkFlushedOnce};

use crate::answers::{AnswerWritingStop, push_frames_for_all_questions};
use crate::end::{
    End, PipeError, end_frame_of_rejected_halo, end_frame_of_rejected_question,
    end_frame_of_rejected_script, end_frame_of_successful_run, exit_status_of_pipe_run,
    is_memory_error, memory_end, push_end_frame,
};
use crate::frame_execution::{FrameExecutionStop, execute_statements_into_frames};
use crate::made_names::names_of_all_maps;
use crate::question_error::{QuestionError, first_question_error};
use cell_core::block::OutputBlock;
use cell_core::memory::Memory;
use cell_core::name::Names;
use cell_core::sink::Sink;
use rcell::execution::{ExecutionStopReason, execute as execute_as_text};
use rcell::loading::map_names_on_shelf;
use rcell_pipe_request::question::Question;
use rcell_pipe_request::request::Request;
use rcell_script::script_fault::{ScriptFault, ScriptKind};
use rcell_script::script_parsing::parse_script;
use rcell_script::statement::Script;
use rcell_tile::halo_margins::{HaloFault, HaloMargin, first_halo_fault, margins_of_maps};
use rcell_tile::run_shelves::RunShelves;
use std::alloc::{AllocError, Global};

/// The form of a run's response.
#[derive(Clone, Copy, Debug, PartialEq, Eq)]
pub enum ResponseForm {
    /// A frame for each statement that writes, a frame for each question, and a last frame.
    Frames,
    /// The text that `rcell` writes for the same maps and script.
    Text,
}

/// The outcome of a run.
#[derive(Clone, Copy, Debug, PartialEq, Eq)]
pub struct PipeOutcome {
    /// 0 for success, 1 if the request or the script was rejected, 3 if memory ran out, 4 if a read or a write failed.
    pub status: u8,
    /// The error, if the run failed.
    pub error: Option<PipeError>,
    /// The error that the last frame reports, even if writing that frame or the flush failed; `Write` if a write failed
    /// in a statement.
    pub reported: Option<PipeError>,
    /// The number of response bytes written, capped at the largest `u64`.
    pub written: u64,
}

/// The state of the sink after a response.
#[derive(Clone, Copy, Debug, PartialEq, Eq)]
pub enum SinkState {
    /// All bytes were written, and the sink was flushed.
    Flushed,
    /// All bytes were written, but the flush failed.
    Unflushed,
    /// A write failed.
    Refused,
}

// Flushes the sink.
fn flush_sink<W: Sink>(out: &mut W) -> SinkState
    ensures taken { W.taken out.new ≡ W.taken out.old }
    ensures faults { IsSinkFlushedOnce result (W.faults out.old) (W.faults out.new) }
{
    match out.flush() {
        Ok(()) => SinkState::Flushed,
        Err(_) => SinkState::Unflushed,
    }
}

// Flushes the sink after the block has been emptied.
fn flush_after_block<W: Sink>(out: &mut W, block: &OutputBlock) -> SinkState
    requires good { block.now.failed ≡ false }
    requires held { block.now.held ≡ [] }
    ensures taken { W.taken out.new ≡ W.taken out.old }
    ensures faults { IsSinkFlushedOnce result (W.faults out.old) (W.faults out.new) }
{
    flush_sink(out)
}

// Builds the outcome of a complete response from the error that it reports, if any.
fn outcome_of_full_response(
    reported: Option<PipeError>,
    sending: SinkState,
    written: u64,
) -> PipeOutcome
    ensures reported { result.reported ≡ reported }
    ensures error { result.error ≡ run_error_with_sink_state reported sending }
    ensures status { result.status ≡ exit_status_of_pipe_run result.error }
    ensures written { result.written ≡ written }
{
    let error = match sending {
        SinkState::Flushed => reported,
        SinkState::Unflushed => Some(PipeError::Write),
        SinkState::Refused => Some(PipeError::Write),
    };
    PipeOutcome {
        status: exit_status_of_pipe_run(error),
        error,
        reported,
        written,
    }
}

// Builds the outcome of a response that was cut short by a failed write.
fn outcome_after_failed_write(written: u64) -> PipeOutcome
    ensures reported { result.reported ≡ Some PipeError.Write }
    ensures error { result.error ≡ Some PipeError.Write }
    ensures status { result.status ≡ exit_status_of_pipe_run result.error }
    ensures written { result.written ≡ written }
{
    outcome_of_full_response(Some(PipeError::Write), SinkState::Refused, written)
}

/// Writes the last frame, and flushes the sink unless a write failed.
pub fn end_response_and_flush<W: Sink>(
    out: &mut W,
    mut block: OutputBlock,
    reported: Option<PipeError>,
    end: &End<'_>,
) -> PipeOutcome
    ensures { (before : Option (List ℕ)) (start : SinkFaults) (text : List ℕ)
        → IsTextAppendedToSink before start text (W.taken out.old) (W.faults out.old) block
        → IsTextSentWithOutcome before start (W.taken out.new) (W.faults out.new) reported
        (text ++ run_end_frame_bytes (end_frame_as_value end.now)) result }
{
    push_end_frame(out, &mut block, end);
    block.empty(out);
    if block.has_failed() {
        return outcome_of_full_response(reported, SinkState::Refused, block.written());
    }
    outcome_of_full_response(reported, flush_after_block(out, &block), block.written())
}

/// Writes the first eight bytes of a response to a new block.
pub fn begin_response<W: Sink>(out: &mut W) -> OutputBlock
    ensures { IsTextAppendedToSink (W.taken out.old) (W.faults out.old) response_magic
        (W.taken out.new) (W.faults out.new) result }
{
    let mut block = OutputBlock::new();
    block.push(out, b"RCELLA1\n");
    block
}

/// Writes a response that contains only the last frame.
pub fn reject<W: Sink>(out: &mut W, error: PipeError, end: &End<'_>) -> PipeOutcome
    ensures { IsTextSentWithOutcome (W.taken out.old) (W.faults out.old) (W.taken out.new)
        (W.faults out.new)
        (Some error) (response_bytes [] (end_frame_as_value end.now)) result }
{
    let block = begin_response(out);
    end_response_and_flush(out, block, Some(error), end)
}

// Formats the error of a script.
fn formatted_script_error(alloc: Global, kind: ScriptKind) -> Result<String, AllocError>
    ensures { IfOk result (λ text. string_bytes text ≡ script_error_text kind) }
{
    format!(in alloc; "{kind}")
}

/// Rejects a script with the text of its error. Reports that memory ran out if the text cannot be allocated.
pub fn reject_script<W: Sink>(alloc: Global, out: &mut W, error: ScriptFault) -> PipeOutcome
    ensures { Rejected (W.taken out.old) (W.faults out.old) (W.taken out.new) (W.faults out.new)
        error result }
{
    match formatted_script_error(alloc, error.kind) {
        Ok(text) => reject(
            out,
            PipeError::Script(error),
            &end_frame_of_rejected_script(error, text.as_bytes()),
        ),
        Err(_) => reject(out, PipeError::Memory, &memory_end(0)),
    }
}

// Writes the frames of questions about the maps that the statements have left.
fn answer_questions<W: Sink>(
    alloc: Global,
    shelves: &RunShelves,
    questions: &[Question],
    mut block: OutputBlock,
    out: &mut W,
) -> PipeOutcome
    requires { All (λ question. question_has_unknown_map shelves.now.outer.names
        (question_as_value question) ≡ false) questions.now }
    ensures { (before : Option (List ℕ)) (start : SinkFaults)
        (read : Result RunRequestValue RequestError)
        (given : RunShelvesValue) (statements : List Statement) (frames : List OutputFrame)
        → IsRunRequestAccepted Frames read given statements (questions_as_values questions.now)
        → StatementsGiveFrames given statements frames shelves.now
        → IsTextAppendedToSink before start (response_magic
        ++ frames_bytes frames) (W.taken out.old)
        (W.faults out.old) block
        → IsEndOfResponseSent (IsResponseToRunRequest Frames read) before start (W.taken out.new)
        (W.faults out.new) result }
{
    match push_frames_for_all_questions(alloc, shelves, questions, &mut block, out) {
        Ok(()) => end_response_and_flush(out, block, None, &end_frame_of_successful_run()),
        Err(stop) => match stop {
            AnswerWritingStop::Memory => end_response_and_flush(
                out,
                block,
                Some(PipeError::MemoryAtQuestion),
                &memory_end(0),
            ),
            AnswerWritingStop::Write => outcome_after_failed_write(block.written()),
        },
    }
}

// Runs statements over maps, and writes their frames and the frames of the questions.
fn run_statements_and_questions<W: Sink>(
    alloc: Global,
    mut shelves: RunShelves,
    script: &Script,
    questions: &[Question],
    out: &mut W,
) -> PipeOutcome
    requires fits { StatementsFitKnownMaps shelves.outer.names script.now }
    requires known { question_error_after_statements Frames shelves script.now
        (questions_as_values questions.now) ≡ None }
    ensures { (read : Result RunRequestValue RequestError)
        → IsRunRequestAccepted Frames read shelves script.now (questions_as_values questions.now)
        → IsEndOfResponseSent (IsResponseToRunRequest Frames read) (W.taken out.old)
        (W.faults out.old)
        (W.taken out.new)
        (W.faults out.new) result }
{
    let mut block = begin_response(out);
    match execute_statements_into_frames(
        alloc,
        &mut shelves,
        script.statements(),
        &mut block,
        out,
    ) {
        Ok(()) => answer_questions(alloc, &shelves, questions, block, out),
        Err(stop) => match stop {
            FrameExecutionStop::Memory { line } => end_response_and_flush(
                out,
                block,
                Some(PipeError::MemoryAt { line }),
                &memory_end(line),
            ),
            FrameExecutionStop::Write => outcome_after_failed_write(block.written()),
        },
    }
}

// Flushes the sink after a text of `written` bytes.
fn flush_sink_after_text<W: Sink>(
    out: &mut W,
    reported: Option<PipeError>,
    written: u64,
) -> PipeOutcome
    ensures { (before : Option (List ℕ)) (text : List ℕ)
        → W.taken out.old ≡ append_if_known before text → written ≡ capped_byte_count (length text)
        → IsTextSentWithOutcome before (W.faults out.old) (W.taken out.new)
        (W.faults out.new) reported text
        result }
{
    outcome_of_full_response(reported, flush_sink(out), written)
}

// Runs statements over maps, and writes their output as text. There is no halo, and there are no questions.
fn run_statements_as_text<W: Sink>(
    alloc: Global,
    shelves: RunShelves,
    script: &Script,
    out: &mut W,
) -> PipeOutcome
    requires { StatementsFitKnownMaps shelves.outer.names script.now }
    ensures { (read : Result RunRequestValue RequestError) (questions : List PatchQuestionValue)
        → IsRunRequestAccepted Text read shelves script.now questions
        → IsEndOfResponseSent (IsResponseToRunRequest Text read) (W.taken out.old)
        (W.faults out.old)
        (W.taken out.new)
        (W.faults out.new) result }
{
    let mut shelf = shelves.into_outer();
    match execute_as_text(alloc, &mut shelf, script.statements(), out) {
        Ok(written) => flush_sink_after_text(out, None, written),
        Err(stopped) => match stopped.stop {
            ExecutionStopReason::Memory { line } => {
                flush_sink_after_text(out, Some(PipeError::MemoryAt { line }), stopped.written)
            }
            ExecutionStopReason::Write => outcome_after_failed_write(stopped.written),
        },
    }
}

// Returns the margins of all maps after the statements, in a tile.
fn margins_in_tile_at_end(
    alloc: Global,
    shelves: &RunShelves,
    script: &Script,
) -> Result<Option<Vec<HaloMargin>>, Memory>
    ensures { IfOk result (λ margins. option_map (λ m. m.items) margins
        ≡ margins_in_tile_at_end shelves.now script.now) }
{
    match shelves.place() {
        Some(place) => {
            let count = shelves.outer().len();
            let margins = margins_of_maps(alloc, &place, count, script.statements())?;
            Ok(Some(margins))
        }
        None => Ok(None),
    }
}

// Returns the error of the first question that is rejected.
fn question_error_after_statements(
    alloc: Global,
    shelves: &RunShelves,
    names: Names,
    script: &Script,
    questions: &[Question],
    form: ResponseForm,
) -> Result<Option<QuestionError>, Memory>
    requires same { names ≡ shelves.now.outer.names }
    requires fits { StatementsFitKnownMaps names script.now }
    ensures { IfOk result (λ error. error
        ≡ question_error_after_statements form shelves.now script.now
        (questions_as_values questions.now)) }
{
    let all = names_of_all_maps(alloc, names, script.statements())?;
    let margins = margins_in_tile_at_end(alloc, shelves, script)?;
    Ok(first_question_error(form, &all, &margins, questions))
}

// Runs a script over maps, unless a question is rejected.
fn run_script<W: Sink>(
    alloc: Global,
    shelves: RunShelves,
    names: Names,
    script: &Script,
    questions: &[Question],
    form: ResponseForm,
    out: &mut W,
) -> PipeOutcome
    requires same { names ≡ shelves.outer.names }
    requires fits { StatementsFitKnownMaps names script.now }
    requires enough { halo_fault_of_statements shelves script.now ≡ None }
    ensures { (text : List ℕ) → IsScript shelves.outer.names text script.now
        → IsEndOfResponseSent (IsResponseToRunRequest form (Ok (record {
          shelves = shelves;
          script = text;
          questions = questions_as_values questions.now;
        }))) (W.taken out.old) (W.faults out.old) (W.taken out.new) (W.faults out.new) result }
{
    match question_error_after_statements(alloc, &shelves, names, script, questions, form) {
        Err(_) => reject(out, PipeError::Memory, &memory_end(0)),
        Ok(Some(error)) => reject(
            out,
            PipeError::Question(error),
            &end_frame_of_rejected_question(error),
        ),
        Ok(None) => match form {
            ResponseForm::Frames => run_statements_and_questions(
                alloc, shelves, script, questions, out,
            ),
            ResponseForm::Text => run_statements_as_text(alloc, shelves, script, out),
        },
    }
}

// Returns the first statement that the halo of a tile does not allow.
fn halo_fault_of_script(
    alloc: Global,
    shelves: &RunShelves,
    script: &Script,
) -> Result<Option<HaloFault>, Memory>
    ensures { IfOk result (λ fault. fault ≡ halo_fault_of_statements shelves.now script.now) }
{
    let count = shelves.outer().len();
    match shelves.place() {
        Some(place) => first_halo_fault(alloc, &place, count, script.statements()),
        None => Ok(None),
    }
}

// Runs a script over maps, unless their halo does not allow a statement or a question is rejected.
fn run_script_within_halo<W: Sink>(
    alloc: Global,
    shelves: RunShelves,
    names: Names,
    script: &Script,
    questions: &[Question],
    form: ResponseForm,
    out: &mut W,
) -> PipeOutcome
    requires same { names ≡ shelves.outer.names }
    requires fits { StatementsFitKnownMaps names script.now }
    ensures { (text : List ℕ) → IsScript shelves.outer.names text script.now
        → IsEndOfResponseSent (IsResponseToRunRequest form (Ok (record {
          shelves = shelves;
          script = text;
          questions = questions_as_values questions.now;
        }))) (W.taken out.old) (W.faults out.old) (W.taken out.new) (W.faults out.new) result }
{
    match halo_fault_of_script(alloc, &shelves, script) {
        Ok(None) => run_script(alloc, shelves, names, script, questions, form, out),
        Ok(Some(fault)) => reject(
            out,
            PipeError::Halo(fault),
            &end_frame_of_rejected_halo(fault),
        ),
        Err(_) => reject(out, PipeError::Memory, &memory_end(0)),
    }
}

/// Runs the script of a request over its maps, and then writes the frames of its questions.
pub fn run_request<W: Sink>(
    alloc: Global,
    request: Request,
    form: ResponseForm,
    out: &mut W,
) -> PipeOutcome
    ensures { IsEndOfResponseSent (IsResponseToRunRequest form (Ok (run_request_as_value request)))
        (W.taken out.old)
        (W.faults out.old) (W.taken out.new) (W.faults out.new) result }
{
    let Request {
        shelves,
        script,
        questions,
    } = request;
    let Ok(names) = map_names_on_shelf(alloc, shelves.outer()) else {
        return reject(out, PipeError::Memory, &memory_end(0));
    };
    match parse_script(alloc, &script, &names) {
        Ok(statements) => run_script_within_halo(
            alloc,
            shelves,
            names,
            &statements,
            questions.as_slice(),
            form,
            out,
        ),
        Err(error) => {
            if is_memory_error(error.kind) {
                reject(out, PipeError::Memory, &memory_end(0))
            } else {
                reject_script(alloc, out, error)
            }
        }
    }
}
