//! Reads requests and writes responses.

ghost use Rattle.std.specs.Prelude.{◌≡◌, ◌≢◌, List, [], true, false, length, Some, None, bytes_eq, codes};
ghost use Rattle.std.specs.Option.{IsNone};
ghost use Rattle.cell_core_devices.specs.Device.{ComingBytes, bytes_to_come_after_reading, has_failed, faults_after_flush};
ghost use Rattle.rcell_script.specs.declared.statement.Statement.{Statement};
ghost use Rattle.rcell_pipe_request.specs.Feeds.{ReadsRequestFieldAndStaysOpen, ReadsToEndWithErrorPosition};
ghost use Rattle.rcell_pipe_request.specs.Supposed.{source_may_hold};
ghost use Rattle.rcell_pipe_request.specs.Questions.{PatchQuestionValue};
ghost use Rattle.rcell_pipe_request.specs.Requests.{run_request_as_value};
ghost use Rattle.rcell_tile.specs.TileRuns.{RunShelvesValue};
ghost use Rattle.rcell_pipe_frames.specs.FrameBytes.{response_bytes};
ghost use Rattle.rcell_pipe_response.specs.RunEnds.{exit_status_of_pipe_run, IsResponseToRunRequest, IsResponseWritten, AreSinkCallsForError, IsResponseOfOnlyEnd};
ghost use Rattle.rcell_pipe_response.specs.FrameEndings.{IsTextSentWithOutcome, IsEndOfResponseSent};
ghost use Rattle.rcell_pipe_join.specs.JoinEnds.{IsJoinResponse};
ghost use Rattle.rcell_pipe_join.specs.JoinRequests.{join_request_or_error};
ghost use Rattle.rcell_plan_response.specs.PlanEnds.{IsPlanResponse};
ghost use Rattle.rcell_plan_response.specs.Responses.{request_form_of_magic, request_form_reading, IsReadStateForError, response_form_of_run, run_request_of_form_reading, run_request_or_error, plan_request_or_error, IsResponseToRequestOfForm, IsResponseToReturnedBytes, IsRequestAccepted, BytesAskForFrames, WritesFramesUnlessFailed};
ghost use Rattle.rcell_plan_response.specs.parts.RequestStops.{pipe_error_of_request_stop, end_frame_of_request_stop};
ghost use Rattle.rcell_plan_response.specs.parts.Answered.{IsResponseToFeed, IsResponseToSource};

use crate::plan_request::read_plan_request;
use crate::plan_response::respond_to_plan_request;
use cell_core::sink::Sink;
use cell_core::source::{Asked, ReadSource};
use rcell_pipe_join::join_request::read_join_request;
use rcell_pipe_join::join_response::respond_to_join_request;
use rcell_pipe_request::error::{ErrorKind, FieldReadingStop, RequestStop};
use rcell_pipe_request::feed::{Feed, new_block, read_bytes_into};
use rcell_pipe_request::request::{Request, read_run_request, read_tile_run_request};
use rcell_pipe_response::end::{PipeError, memory_end, request_end};
use rcell_pipe_response::frame_run::{PipeOutcome, ResponseForm, reject, run_request};
use rcell_script::law::{scripts_have_no_fault, text_denotes_at_most_one_script};
use std::alloc::Global;
use std::io::Read;

/// The maps of a run.
#[derive(Clone, Copy, Debug, PartialEq, Eq)]
pub enum RunForm {
    /// Full maps, and the form of the response.
    FullMaps(ResponseForm),
    /// The maps of a tile with their halo, after the place of the tile. The response consists of frames.
    Tile,
}

/// The action that a request asks for.
#[derive(Clone, Copy, Debug, PartialEq, Eq)]
pub enum RequestForm {
    /// Runs a script over maps.
    Run(RunForm),
    /// Reports what the statements of a script read, make and write.
    Plan,
    /// Joins the results of tiles.
    Join,
}

fn is_frame_run_magic(magic: &[u8]) -> bool
    ensures { result ≡ bytes_eq magic.now (codes "RCELLQ1\n") }
{
    magic == b"RCELLQ1\n".as_slice()
}

fn is_tile_run_magic(magic: &[u8]) -> bool
    ensures { result ≡ bytes_eq magic.now (codes "RCELLW1\n") }
{
    magic == b"RCELLW1\n".as_slice()
}

fn is_text_run_magic(magic: &[u8]) -> bool
    ensures { result ≡ bytes_eq magic.now (codes "RCELLT1\n") }
{
    magic == b"RCELLT1\n".as_slice()
}

fn is_plan_magic(magic: &[u8]) -> bool
    ensures { result ≡ bytes_eq magic.now (codes "RCELLP1\n") }
{
    magic == b"RCELLP1\n".as_slice()
}

fn is_join_magic(magic: &[u8]) -> bool
    ensures { result ≡ bytes_eq magic.now (codes "RCELLJ1\n") }
{
    magic == b"RCELLJ1\n".as_slice()
}

fn request_form_of_magic(magic: &[u8]) -> Option<RequestForm>
    ensures { result ≡ request_form_of_magic magic.now }
{
    if is_frame_run_magic(magic) {
        return Some(RequestForm::Run(RunForm::FullMaps(ResponseForm::Frames)));
    }
    if is_tile_run_magic(magic) {
        return Some(RequestForm::Run(RunForm::Tile));
    }
    if is_text_run_magic(magic) {
        return Some(RequestForm::Run(RunForm::FullMaps(ResponseForm::Text)));
    }
    if is_plan_magic(magic) {
        return Some(RequestForm::Plan);
    }
    if is_join_magic(magic) {
        return Some(RequestForm::Join);
    }
    None
}

// Reads the form of a request from its first eight bytes.
#[tactic(auto, unfolding(crate::specs::Responses::request_form_reading))]
fn read_request_form<R: Read>(feed: &mut Feed<R>) -> Result<RequestForm, FieldReadingStop>
    ensures { ReadsRequestFieldAndStaysOpen (λ form. form) feed.old result feed.new
        request_form_reading }
{
    let mut magic = [0u8; 8];
    read_bytes_into(feed, &mut magic)?;
    match request_form_of_magic(&magic) {
        Some(form) => Ok(form),
        None => Err(FieldReadingStop::Error(ErrorKind::BadMagic)),
    }
}

// Rejects a request that could not be read.
fn reject_unread_request<W: Sink>(out: &mut W, stop: RequestStop) -> PipeOutcome
    ensures { IsTextSentWithOutcome (W.taken out.old) (W.faults out.old) (W.taken out.new)
        (W.faults out.new)
        (Some (pipe_error_of_request_stop stop))
        (response_bytes [] (end_frame_of_request_stop stop)) result }
{
    match stop {
        RequestStop::Error(error) => reject(out, PipeError::Request(error), &request_end(error)),
        RequestStop::Memory => reject(out, PipeError::Memory, &memory_end(0)),
    }
}

fn response_form_of_run(run: RunForm) -> ResponseForm
    ensures { result ≡ response_form_of_run run }
{
    match run {
        RunForm::FullMaps(form) => form,
        RunForm::Tile => ResponseForm::Frames,
    }
}

// Reads a run request after its first eight bytes.
fn read_run_request_of_form<R: Read>(
    alloc: Global,
    feed: &mut Feed<R>,
    run: RunForm,
) -> Result<Request, RequestStop>
    ensures { ReadsToEndWithErrorPosition run_request_as_value feed.old result feed.new
        (run_request_of_form_reading run) }
{
    match run {
        RunForm::FullMaps(_) => read_run_request(alloc, feed),
        RunForm::Tile => read_tile_run_request(alloc, feed),
    }
}

// Reads a run request after its first eight bytes, and responds to it.
fn read_and_answer_run_request<R: Read, W: Sink>(
    alloc: Global,
    feed: &mut Feed<R>,
    run: RunForm,
    out: &mut W,
) -> PipeOutcome
    ensures end { IsEndOfResponseSent
        (IsResponseToFeed feed.old feed.new (λ c. IsResponseToRunRequest (response_form_of_run run)
        (run_request_or_error run c)))
        (W.taken out.old) (W.faults out.old) (W.taken out.new) (W.faults out.new) result }
    ensures asked { feed.old.asked ≡ Asked.Going
        → IsReadStateForError result.reported feed.new.asked }
{
    match read_run_request_of_form(alloc, feed, run) {
        Ok(request) => run_request(alloc, request, response_form_of_run(run), out),
        Err(stop) => reject_unread_request(out, stop),
    }
}

// Reads a plan request after its first eight bytes, and responds to it.
fn read_and_answer_plan_request<R: Read, W: Sink>(
    alloc: Global,
    feed: &mut Feed<R>,
    out: &mut W,
) -> PipeOutcome
    ensures end { IsEndOfResponseSent
        (IsResponseToFeed feed.old feed.new (λ c. IsPlanResponse (plan_request_or_error c)))
        (W.taken out.old) (W.faults out.old) (W.taken out.new) (W.faults out.new) result }
    ensures asked { feed.old.asked ≡ Asked.Going
        → IsReadStateForError result.reported feed.new.asked }
{
    match read_plan_request(alloc, feed) {
        Ok(request) => respond_to_plan_request(alloc, request, out),
        Err(stop) => reject_unread_request(out, stop),
    }
}

// Reads a join request after its first eight bytes, and responds to it.
fn read_and_answer_join_request<R: Read, W: Sink>(
    alloc: Global,
    feed: &mut Feed<R>,
    out: &mut W,
) -> PipeOutcome
    ensures end { IsEndOfResponseSent
        (IsResponseToFeed feed.old feed.new (λ c. IsJoinResponse (join_request_or_error c)))
        (W.taken out.old) (W.faults out.old) (W.taken out.new) (W.faults out.new) result }
    ensures asked { feed.old.asked ≡ Asked.Going
        → IsReadStateForError result.reported feed.new.asked }
{
    match read_join_request(alloc, feed) {
        Ok(request) => respond_to_join_request(alloc, request, out),
        Err(stop) => reject_unread_request(out, stop),
    }
}

// Reads a request of any form, and responds to it.
fn read_and_answer_request<R: Read, W: Sink>(
    alloc: Global,
    feed: &mut Feed<R>,
    out: &mut W,
) -> PipeOutcome
    ensures end { IsEndOfResponseSent
        (IsResponseToFeed feed.old feed.new (λ c. IsResponseToRequestOfForm
        (request_form_reading c)))
        (W.taken out.old) (W.faults out.old) (W.taken out.new) (W.faults out.new) result }
    // The source is not read again after its end or a read error. Unless the response is only the last frame, the
    // source has ended, so the request is complete.
    ensures asked { feed.old.asked ≡ Asked.Going
        → IsReadStateForError result.reported feed.new.asked }
{
    match read_request_form(feed) {
        Ok(form) => match form {
            RequestForm::Run(maps) => read_and_answer_run_request(alloc, feed, maps, out),
            RequestForm::Plan => read_and_answer_plan_request(alloc, feed, out),
            RequestForm::Join => read_and_answer_join_request(alloc, feed, out),
        },
        Err(stop) => reject_unread_request(out, stop.at(0, 0)),
    }
}

/// The outcome of a response, and the source of the request with the bytes read from it.
#[derive(Drop)]
pub struct OutcomeWithSource<R> {
    /// The outcome of the response.
    pub outcome: PipeOutcome,
    /// The source after the last read.
    pub source: ReadSource<R>,
}

// Reads a request of any form from its source, and responds to it.
fn read_and_answer_from_source<R: Read + Drop, W: Sink>(
    alloc: Global,
    source: ReadSource<R>,
    out: &mut W,
) -> OutcomeWithSource<R>
    ensures end { IsEndOfResponseSent
        (IsResponseToSource source.0.1 result.source.0.1 result.source.1)
        (W.taken out.old) (W.faults out.old) (W.taken out.new) (W.faults out.new) result.outcome }
    ensures asked { source.1 ≡ Asked.Going
        → IsReadStateForError result.outcome.reported result.source.1 }
{
    match new_block(alloc) {
        Ok(block) => {
            let mut feed = Feed::new(block, source);
            let outcome = read_and_answer_request(alloc, &mut feed, out);
            let source = feed.into_source();
            OutcomeWithSource { outcome, source }
        }
        Err(_) => {
            let outcome = reject(out, PipeError::Memory, &memory_end(0));
            OutcomeWithSource { outcome, source }
        }
    }
}

/// Reads a request, runs or plans its script or joins the results of tiles, and writes the response.
///
/// The request is read to its end before the first statement is executed. All memory for a statement or question is
/// allocated before its first byte is written, and all memory for a plan before the first byte of the response.
pub fn respond<R: Read + Drop, W: Sink>(
    alloc: Global,
    source: ReadSource<R>,
    out: &mut W,
) -> OutcomeWithSource<R>
    // The bytes written depend on the error that the response reports. Without an error, they are the frames or the
    // text of the statements, or their plans, and the end. If the request or its script has an error, they are only the
    // end with the first error. If memory ran out, they are the frames or the text of the previous statements, and the
    // end. If a write failed, they are the first bytes of these. Only the bytes that the source has returned, and
    // whether it has ended or failed, are known.
    ensures end { IsResponseWritten
        (IsResponseToReturnedBytes source.0.1 result.source.0.1 result.source.1)
        (W.taken out.old) (W.taken out.new) result.outcome.reported result.outcome.error
        result.outcome.written }
    // The source is not read again after its end or a read error. Unless the response is only the last frame, the
    // source has ended, so the request is complete.
    ensures asked { source.1 ≡ Asked.Going
        → IsReadStateForError result.outcome.reported result.source.1 }
    // For any bytes from the source: if the response reports an error in the request or its script, it is only the last
    // frame.
    ensures rejected { IsResponseWritten IsResponseOfOnlyEnd (W.taken out.old) (W.taken out.new)
        result.outcome.reported result.outcome.error result.outcome.written }
    ensures status { result.outcome.status ≡ exit_status_of_pipe_run result.outcome.error }
    // Unless a write failed, the error of the run is the error that the response reports.
    ensures same { result.outcome.error ≢ Some PipeError.Write
        → result.outcome.error ≡ result.outcome.reported }
    // The sink is flushed once, after the last byte, unless a write failed. The error is `Write` only if a write or the
    // flush failed.
    ensures first { AreSinkCallsForError result.outcome.error (W.faults out.old)
        (W.faults out.new) }
    ensures write { result.outcome.error ≡ Some PipeError.Write
        → has_failed (W.faults out.new) ≡ true }
    ensures flushed { result.outcome.error ≢ Some PipeError.Write
        → W.faults out.new ≡ faults_after_flush (W.faults out.old) false }
    // If the error is `Write` but no write failed, only the flush failed, and the sink has accepted the full response.
    ensures whole { result.outcome.error ≡ Some PipeError.Write
        → (W.faults out.new).refused ≡ false
        → (result.outcome.reported ≢ Some PipeError.Write) × IsResponseWritten
        (IsResponseToReturnedBytes source.0.1 result.source.0.1 result.source.1)
        (W.taken out.old) (W.taken out.new) result.outcome.reported None result.outcome.written }
    // If a request for the frames of a script and of questions is accepted, memory does not run out and the sink does
    // not fail, exactly these frames and the end are written.
    ensures headline { (c : ComingBytes) (shelves : RunShelvesValue) (statements : List Statement)
        (questions : List PatchQuestionValue)
        → source_may_hold result.source.0.1 result.source.1 c ≡ true
        → BytesAskForFrames (bytes_to_come_after_reading c
        (length source.0.1)) shelves statements questions
        → WritesFramesUnlessFailed shelves statements questions (W.taken out.old) (W.taken out.new)
        (has_failed (W.faults out.new)) result.outcome }
    // If the script of a request of any form is accepted, memory does not run out and the sink does not fail, the run
    // succeeds.
    ensures complete { (c : ComingBytes) → source_may_hold result.source.0.1 result.source.1 c
        ≡ true
        → IsRequestAccepted (request_form_reading
        (bytes_to_come_after_reading c (length source.0.1)))
        → result.outcome.status ≢ 3
        → has_failed (W.faults out.new) ≡ false → IsNone result.outcome.error }
{
    scripts_have_no_fault();
    text_denotes_at_most_one_script();
    read_and_answer_from_source(alloc, source, out)
}
