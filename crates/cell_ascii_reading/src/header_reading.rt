//! Reads the header of a grid text line by line.

ghost use Rattle.std.specs.Prelude.{◌≡◌, ◌+◌, ◌^◌, ◌<◌, ◌≤◌, false, drop, length, Ok, OnOk, IfOk};
ghost use Rattle.std.specs.List.{position_or_len};
ghost use Rattle.cell_ascii_reading.specs.Ahead.{ScanResultsBeforeAndAfterAgree};
ghost use Rattle.cell_ascii_meaning.specs.GridTokens.{next_word_start};
ghost use Rattle.cell_ascii_meaning.specs.Header.{end_of_continued_blank_run, header_value_after_colon, header_line_end_or_fault, header_line_after_first_word, is_colon, rest_of_header_from_line};
ghost use Rattle.cell_ascii_reading.specs.Opening.{header_value_from_call_result, line_end_from_call_result, key_line_from_call_result, state_after_header_line, header_state_from_call_result, header_from_call_result};
ghost use Rattle.cell_ascii_reading.specs.parts.LineEnds.{IsScannerAtHeaderValue, IsScannerAfterLineEnd};
ghost use Rattle.cell_ascii_reading.specs.Scan.{ResultTellsIfSourceFailed, AnyFaultIsOfTextOrSource};

use crate::keys::HeaderKeys;
use crate::scanner::{Scanner, WordOrLineEnd, WordOrTextEnd};
use crate::{key_names, number};
use cell_ascii_meaning::grid_fault::{GridFault, GridKind};
use cell_core::source::Source;

// One more than the number of keys.
const MOST_HEADER_LINES: u32 = 10;

/// The end of a header line: a line feed, or the end of the text.
#[derive(Clone, Copy)]
pub enum HeaderLineEnding {
    Feed,
    Text,
}

/// The result of reading a header line: a key, the first word of the data, or the end of the text.
#[derive(Clone, Copy)]
pub enum HeaderLineKind {
    Key,
    Data,
    Last,
}

fn bad_header_fault(line: u64) -> GridFault
    ensures { result ≡ record { kind = GridKind.BadHeader; line = line } }
{
    GridFault {
        kind: GridKind::BadHeader,
        line,
    }
}

// Reads the value of a header line. Returns the index in the scanner's word at which the value begins.
fn read_header_value_start<R: Source>(
    scanner: &mut Scanner<R>,
    start: usize,
) -> Result<usize, GridFault>
    requires room { scanner.old.line + 1048576 < 2 ^ 64 }
    requires run { scanner.old.run ≡ 0 }
    requires heard { scanner.old.ahead.heard.failed ≡ false }
    ensures value { ScanResultsBeforeAndAfterAgree (header_value_after_colon scanner.old.line
        (drop start scanner.old.word))
        scanner.old.ahead (header_value_from_call_result result scanner.new.word)
        scanner.new.ahead }
    ensures ok { IfOk result (λ at. IsScannerAtHeaderValue at scanner.old.line scanner.new) }
    ensures kind { AnyFaultIsOfTextOrSource result }
    ensures heard { ResultTellsIfSourceFailed result scanner.old.ahead scanner.new.ahead }
{
    if start < scanner.word().len() {
        return Ok(start);
    }
    let line = scanner.line();
    match scanner.skip_blanks()? {
        WordOrLineEnd::Word => {
            scanner.read_word()?;
            Ok(0)
        }
        WordOrLineEnd::Feed => Err(bad_header_fault(line)),
        WordOrLineEnd::End => Err(bad_header_fault(line)),
    }
}

// Reads the end of a header line.
fn read_header_line_end<R: Source>(scanner: &mut Scanner<R>) -> Result<HeaderLineEnding, GridFault>
    requires room { scanner.old.line + 1048576 < 2 ^ 64 }
    requires run { scanner.old.run ≡ 0 }
    ensures ending { ScanResultsBeforeAndAfterAgree (λ c. header_line_end_or_fault scanner.old.line
        (end_of_continued_blank_run scanner.old.line 0 c))
        scanner.old.ahead (line_end_from_call_result result scanner.new.run) scanner.new.ahead }
    ensures ok { IfOk result (λ ending. IsScannerAfterLineEnd ending scanner.old.line scanner.new) }
    ensures word { OnOk result (scanner.new.word ≡ scanner.old.word) }
    ensures kind { AnyFaultIsOfTextOrSource result }
    ensures heard { ResultTellsIfSourceFailed result scanner.old.ahead scanner.new.ahead }
{
    let line = scanner.line();
    match scanner.skip_blanks()? {
        WordOrLineEnd::Word => Err(bad_header_fault(line)),
        WordOrLineEnd::Feed => Ok(HeaderLineEnding::Feed),
        WordOrLineEnd::End => Ok(HeaderLineEnding::Text),
    }
}

// Reads a header line after its first word, given the index of the word's first colon.
fn read_rest_of_header_key_line<R: Source>(
    scanner: &mut Scanner<R>,
    keys: &mut HeaderKeys,
    colon: usize,
) -> Result<HeaderLineEnding, GridFault>
    requires room { scanner.old.line + 1048577 < 2 ^ 64 }
    requires run { scanner.old.run ≡ 0 }
    requires colon { colon ≡ position_or_len is_colon scanner.old.word }
    requires within { colon < length scanner.old.word }
    requires heard { scanner.old.ahead.heard.failed ≡ false }
    ensures key { ScanResultsBeforeAndAfterAgree
        (header_line_after_first_word scanner.old.line keys.old
        scanner.old.word) scanner.old.ahead
        (key_line_from_call_result result keys.new scanner.new.run) scanner.new.ahead }
    ensures ok { IfOk result (λ ending. IsScannerAfterLineEnd ending scanner.old.line scanner.new) }
    ensures kind { AnyFaultIsOfTextOrSource result }
    ensures heard { ResultTellsIfSourceFailed result scanner.old.ahead scanner.new.ahead }
{
    let line = scanner.line();
    let key = key_names::header_key_with_name(&scanner.word()[..colon]);
    let start = read_header_value_start(scanner, colon + 1)?;
    let ending = read_header_line_end(scanner)?;
    match keys.give(key, &scanner.word()[start..]) {
        Ok(()) => Ok(ending),
        Err(kind) => Err(GridFault { kind, line }),
    }
}

// Reads a header line, or the first word of the data.
fn read_header_line<R: Source>(
    scanner: &mut Scanner<R>,
    keys: &mut HeaderKeys,
) -> Result<HeaderLineKind, GridFault>
    requires room { scanner.old.line + 2097154 < 2 ^ 64 }
    requires run { scanner.old.run ≤ 1048576 }
    ensures line { ScanResultsBeforeAndAfterAgree (λ c. state_after_header_line keys.old
        (next_word_start scanner.old.line scanner.old.run c))
        scanner.old.ahead (header_state_from_call_result result keys.new scanner.new.word
        scanner.new.line
        scanner.new.run) scanner.new.ahead }
    ensures run { OnOk result (scanner.new.run ≤ 1048576) }
    ensures lines { OnOk result (scanner.new.line ≤ scanner.old.line + 1048577) }
    ensures kind { AnyFaultIsOfTextOrSource result }
    ensures heard { ResultTellsIfSourceFailed result scanner.old.ahead scanner.new.ahead }
{
    match scanner.skip_spaces() {
        Ok(WordOrTextEnd::Word) => {}
        Ok(WordOrTextEnd::End) => return Ok(HeaderLineKind::Last),
        Err(fault) => return Err(fault),
    }
    match scanner.read_word() {
        Ok(()) => {}
        Err(fault) => return Err(fault),
    }
    let colon = number::first_byte_place_or_length(b':', scanner.word());
    if colon >= scanner.word().len() {
        return Ok(HeaderLineKind::Data);
    }
    match read_rest_of_header_key_line(scanner, keys, colon) {
        Ok(HeaderLineEnding::Feed) => Ok(HeaderLineKind::Key),
        Ok(HeaderLineEnding::Text) => Ok(HeaderLineKind::Last),
        Err(fault) => Err(fault),
    }
}

/// Reads the lines of a header up to the first word of the data, or to the end of the text. Returns whether there is a
/// first word.
pub fn read_header<R: Source>(
    scanner: &mut Scanner<R>,
    keys: &mut HeaderKeys,
) -> Result<bool, GridFault>
    requires room { scanner.old.line ≤ 1048576 }
    requires run { scanner.old.run ≤ 1048576 }
    ensures header { ScanResultsBeforeAndAfterAgree
        (rest_of_header_from_line 10 keys.old scanner.old.line
        scanner.old.run)
        scanner.old.ahead (header_from_call_result result keys.new scanner.new.word
        scanner.new.line)
        scanner.new.ahead }
    ensures lines { OnOk result (scanner.new.line ≤ scanner.old.line + 10485770) }
    ensures kind { AnyFaultIsOfTextOrSource result }
    ensures heard { ResultTellsIfSourceFailed result scanner.old.ahead scanner.new.ahead }
{
    for _ in 0..MOST_HEADER_LINES {
        match read_header_line(scanner, keys) {
            Ok(HeaderLineKind::Key) => {}
            Ok(HeaderLineKind::Data) => return Ok(true),
            Ok(HeaderLineKind::Last) => return Ok(false),
            Err(fault) => return Err(fault),
        }
    }
    Err(bad_header_fault(scanner.line()))
}
