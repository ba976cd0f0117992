//! The ways in which a run ends.

ghost use Rattle.std.specs.Prelude.{◌≡◌};
ghost use Rattle.cell_core_devices.specs.Blocks.{IsTextAppendedThroughBlock};
ghost use Rattle.rcell_pipe_frames.specs.FrameBytes.{run_end_frame_bytes};
ghost use Rattle.rcell_pipe_response.specs.RunEnds.{grid_error_text, request_error_text, exit_status_of_request_error, column_of_script_error, end_frame_of_successful_run, request_end, end_frame_of_rejected_script, halo_error_text, end_frame_of_rejected_halo, question_error_text, end_frame_of_rejected_question, memory_end, exit_status_of_pipe_error, exit_status_of_pipe_run, end_frame_as_value};
ghost use Rattle.rcell_pipe_response.specs.parts.ScriptKinds.{is_memory_error};
ghost use Rattle.rcell_script.specs.ScriptTexts.{script_error_text};

use crate::question_error::{QuestionError, QuestionErrorKind};
use cell_ascii_meaning::grid_fault::GridKind;
use cell_core::block::OutputBlock;
use cell_core::sink::Sink;
use rcell_pipe_frames::bytes::{push_eight_byte_number, push_length_and_text};
use rcell_pipe_request::error::{ErrorKind, RequestError};
use rcell_script::script_fault::{ScriptFault, ScriptKind};
use rcell_tile::halo_margins::{HaloFault, HaloFaultKind};

/// Why a run of `rcell-pipe` failed.
#[derive(Clone, Copy, Debug, PartialEq, Eq)]
pub enum PipeError {
    /// The bytes are not a request.
    Request(RequestError),
    /// The script was rejected.
    Script(ScriptFault),
    /// The halo of a tile does not allow a statement.
    Halo(HaloFault),
    /// A question was rejected.
    Question(QuestionError),
    /// Memory ran out before the script was accepted.
    Memory,
    /// Memory ran out at the statement of this line.
    MemoryAt { line: u64 },
    /// Memory ran out at a question.
    MemoryAtQuestion,
    /// A write failed.
    Write,
}

/// The fields of the last frame.
#[derive(Clone, Copy, Debug)]
pub struct End<'a> {
    pub status: u8,
    pub source: u8,
    pub maps: u32,
    pub line: u64,
    pub column: u32,
    pub text: &'a [u8],
}

// Returns the text that `rcell` prints for an error in the text of a grid.
fn grid_error_text(kind: GridKind) -> &'static [u8]
    ensures { result.now ≡ grid_error_text kind }
{
    match kind {
        GridKind::BadHeader => b"bad header line",
        GridKind::TwiceKey => b"key given twice",
        GridKind::MissingKey => b"missing key",
        GridKind::BadNumber => b"bad number",
        GridKind::BadType => b"type not supported",
        GridKind::Region(_) => b"bad region",
        GridKind::BadCell => b"bad cell",
        GridKind::CellRange => b"cell out of range",
        GridKind::TooFew => b"too few cells",
        GridKind::TooMany => b"too many cells",
        GridKind::Read => b"read failed",
        GridKind::Memory => b"no memory",
        GridKind::Failed => b"reader failed",
        GridKind::ReaderStuck => b"too many blanks",
        GridKind::LongToken => b"token too long",
    }
}

fn request_error_text(kind: ErrorKind) -> &'static [u8]
    ensures { result.now ≡ request_error_text kind }
{
    match kind {
        ErrorKind::BadMagic => b"bad magic",
        ErrorKind::Short => b"request too short",
        ErrorKind::ReadFailed => b"read failed",
        ErrorKind::BadPlace => b"bad place",
        ErrorKind::BadCount => b"bad number of maps",
        ErrorKind::BadName => b"bad name",
        ErrorKind::NameTwice => b"name used twice",
        ErrorKind::BadNumber => b"bad number",
        ErrorKind::BadRegion => b"bad region",
        ErrorKind::BadType => b"bad type",
        ErrorKind::BadFlags => b"bad flags",
        ErrorKind::BadNodata => b"bad nodata",
        ErrorKind::BadLabel => b"bad label",
        ErrorKind::BadMask => b"bad mask",
        ErrorKind::CellRange => b"cell out of range",
        ErrorKind::Grid(kind) => grid_error_text(kind),
        ErrorKind::OtherRegion => b"other region",
        ErrorKind::ScriptSize => b"script too long",
        ErrorKind::BadQuestion => b"bad question",
        ErrorKind::BadConnectivity => b"bad connectivity",
        ErrorKind::BadDepth => b"bad depth",
        ErrorKind::BadZones => b"bad zones",
        ErrorKind::BadKind => b"bad kind",
        ErrorKind::BadTileCount => b"bad number of tiles",
        ErrorKind::OtherConnectivity => b"other connectivity",
        ErrorKind::OtherPlace => b"other place",
        ErrorKind::BadSize => b"bad size",
        ErrorKind::OtherSize => b"other size",
        ErrorKind::BadBorder => b"bad border",
        ErrorKind::TooManyPatches => b"too many patches",
        ErrorKind::BadWidth => b"bad width",
        ErrorKind::BadTableCount => b"bad number of tables",
        ErrorKind::ZeroCount => b"bad count",
        ErrorKind::TooManyCells => b"too many cells",
        ErrorKind::BadRun => b"bad run",
        ErrorKind::PatchOrder => b"patch order",
        ErrorKind::UnknownPatch => b"unknown patch",
        ErrorKind::BadPatch => b"bad patch",
        ErrorKind::OtherClass => b"other class",
        ErrorKind::Trailing => b"bytes after the request",
    }
}

fn exit_status_of_request_error(kind: ErrorKind) -> u8
    ensures { result ≡ exit_status_of_request_error kind }
{
    match kind {
        ErrorKind::ReadFailed => 4,
        _ => 1,
    }
}

/// The last frame of a successful run.
pub fn end_frame_of_successful_run() -> End<'static>
    ensures { end_frame_as_value result ≡ end_frame_of_successful_run }
{
    End {
        status: 0,
        source: 0,
        maps: 0,
        line: 0,
        column: 0,
        text: b"",
    }
}

/// The last frame if the bytes are not a request.
pub fn request_end(error: RequestError) -> End<'static>
    ensures { end_frame_as_value result ≡ request_end error }
{
    End {
        status: exit_status_of_request_error(error.kind),
        source: 1,
        maps: error.maps,
        line: error.row,
        column: 0,
        text: request_error_text(error.kind),
    }
}

/// Returns whether memory ran out while a script was read.
pub(crate) fn is_memory_error(kind: ScriptKind) -> bool
    ensures { result ≡ is_memory_error kind }
{
    match kind {
        ScriptKind::Memory => true,
        _ => false,
    }
}

fn column_of_script_error(kind: ScriptKind) -> u32
    ensures { result ≡ column_of_script_error kind }
{
    match kind {
        ScriptKind::Calc(error) => error.column,
        _ => 0,
    }
}

/// The last frame if the script was rejected, with the text of its error.
pub fn end_frame_of_rejected_script<'a>(error: ScriptFault, text: &'a [u8]) -> End<'a>
    requires { text.now ≡ script_error_text error.kind }
    ensures { end_frame_as_value result ≡ end_frame_of_rejected_script error }
{
    End {
        status: 1,
        source: 2,
        maps: 0,
        line: error.line,
        column: column_of_script_error(error.kind),
        text,
    }
}

fn halo_error_text(kind: HaloFaultKind) -> &'static [u8]
    ensures { result.now ≡ halo_error_text kind }
{
    match kind {
        HaloFaultKind::TooSmall => b"halo too small",
        HaloFaultKind::Labels => b"labels in a tile",
    }
}

/// The last frame if the halo of a tile does not allow a statement.
pub(crate) fn end_frame_of_rejected_halo(fault: HaloFault) -> End<'static>
    ensures { end_frame_as_value result ≡ end_frame_of_rejected_halo fault }
{
    End {
        status: 1,
        source: 2,
        maps: 0,
        line: fault.line,
        column: 0,
        text: halo_error_text(fault.kind),
    }
}

fn question_error_text(kind: QuestionErrorKind) -> &'static [u8]
    ensures { result.now ≡ question_error_text kind }
{
    match kind {
        QuestionErrorKind::UnknownMap => b"unknown map",
        QuestionErrorKind::HaloTooSmall => halo_error_text(HaloFaultKind::TooSmall),
        QuestionErrorKind::OfText => b"question for a text",
    }
}

/// The last frame if a question was rejected.
pub(crate) fn end_frame_of_rejected_question(error: QuestionError) -> End<'static>
    ensures { end_frame_as_value result ≡ end_frame_of_rejected_question error }
{
    End {
        status: 1,
        source: 3,
        maps: 0,
        line: error.number as u64,
        column: 0,
        text: question_error_text(error.kind),
    }
}

/// The last frame if memory ran out at a line. Line 0 is before the first statement or after the last.
pub fn memory_end(line: u64) -> End<'static>
    ensures { end_frame_as_value result ≡ memory_end line }
{
    End {
        status: 3,
        source: 0,
        maps: 0,
        line,
        column: 0,
        text: b"no memory",
    }
}

/// Returns the exit status for an error.
fn exit_status_of_pipe_error(error: PipeError) -> u8
    ensures { result ≡ exit_status_of_pipe_error error }
{
    match error {
        PipeError::Request(error) => exit_status_of_request_error(error.kind),
        PipeError::Script(_) => 1,
        PipeError::Halo(_) => 1,
        PipeError::Question(_) => 1,
        PipeError::Memory => 3,
        PipeError::MemoryAt { .. } => 3,
        PipeError::MemoryAtQuestion => 3,
        PipeError::Write => 4,
    }
}

/// Returns the exit status of a run.
pub(crate) fn exit_status_of_pipe_run(error: Option<PipeError>) -> u8
    ensures { result ≡ exit_status_of_pipe_run error }
{
    match error {
        Some(error) => exit_status_of_pipe_error(error),
        None => 0,
    }
}

/// Writes the last frame.
pub(crate) fn push_end_frame<W: Sink>(out: &mut W, block: &mut OutputBlock, end: &End<'_>)
    ensures { IsTextAppendedThroughBlock W.taken W.faults out.old block.old
        (run_end_frame_bytes (end_frame_as_value end.now)) out.new block.new }
{
    block.push(out, b"DONE");
    push_eight_byte_number(out, block, end.status as u64);
    push_eight_byte_number(out, block, end.source as u64);
    push_eight_byte_number(out, block, end.maps as u64);
    push_eight_byte_number(out, block, end.line);
    push_eight_byte_number(out, block, end.column as u64);
    push_length_and_text(out, block, end.text);
}
