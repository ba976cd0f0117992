//! Reads the header of a grid and the first word after it.

ghost use Rattle.std.specs.Prelude.{◌≡◌, ◌+◌, ◌^◌, ◌<◌, ◌≤◌, Ok, Err, OnOk, IfOk, IfErr};
ghost use Rattle.cell_core_devices.specs.Supposed.{HoldsForAgreeingContents};
ghost use Rattle.cell_ascii_reading.specs.Ahead.{bytes_to_come_for_content, ScanResultsBeforeAndAfterAgree};
ghost use Rattle.cell_ascii_meaning.specs.GridTokens.{next_word_start};
ghost use Rattle.cell_ascii_meaning.specs.Header.{result_with_line_in_fault, header_defined_by_keys, header_of_text};
ghost use Rattle.cell_ascii.specs.Reader.{next_word_with_line, word_and_line_from_scanner_result};
ghost use Rattle.cell_ascii_reading.specs.Scan.{ResultTellsIfSourceFailed, AnyFaultIsOfTextOrSource};
ghost use Rattle.cell_ascii.specs.parts.Unread.{ScannerHasReadHeaderAndWord};

use cell_ascii_meaning::grid_fault::{GridFault, GridKind};
use cell_ascii_reading::header::Header;
use cell_ascii_reading::header_reading;
use cell_ascii_reading::keys::HeaderKeys;
use cell_ascii_reading::scanner::{Scanner, WordOrTextEnd};
use cell_core::source::Source;

/// Reads the next word.
pub(crate) fn read_token<R: Source>(scanner: &mut Scanner<R>) -> Result<(), GridFault>
    requires room { scanner.old.line + 1048576 < 2 ^ 64 }
    requires run { scanner.old.run ≤ 1048576 }
    ensures token { ScanResultsBeforeAndAfterAgree (λ c. next_word_with_line
        (next_word_start scanner.old.line scanner.old.run c))
        scanner.old.ahead (word_and_line_from_scanner_result result scanner.new.line
        scanner.new.word)
        scanner.new.ahead }
    ensures lines { scanner.new.line ≤ scanner.old.line + 1048576 }
    ensures run { scanner.new.run ≤ 1048576 }
    ensures none { OnOk result (scanner.new.run ≡ 0) }
    ensures kind { AnyFaultIsOfTextOrSource result }
    ensures heard { ResultTellsIfSourceFailed result scanner.old.ahead scanner.new.ahead }
{
    match scanner.skip_spaces()? {
        WordOrTextEnd::Word => scanner.read_word(),
        WordOrTextEnd::End => Err(GridFault {
            kind: GridKind::TooFew,
            line: scanner.line(),
        }),
    }
}

// Builds the header from its keys. An error is reported at `line`.
fn header_of_keys_or_fault_at_line(keys: HeaderKeys, line: u64) -> Result<Header, GridFault>
    ensures { result ≡ result_with_line_in_fault line (header_defined_by_keys keys) }
{
    keys.into_header().map_err(|kind| GridFault { kind, line })
}

/// Reads the header of an unread text and the first word after it. Returns the header, and whether a word follows it.
pub(crate) fn read_header_and_first_word<R: Source>(
    scanner: &mut Scanner<R>,
) -> Result<(Header, bool), GridFault>
    requires start { (scanner.old.line ≡ 1) × (scanner.old.run ≡ 0) }
    ensures opened { IfOk result (λ r. ScannerHasReadHeaderAndWord r scanner.old scanner.new) }
    ensures fault { IfErr result (λ f. HoldsForAgreeingContents
        (bytes_to_come_for_content scanner.old.ahead)
        (bytes_to_come_for_content scanner.new.ahead) (λ c. header_of_text c ≡ Err f)) }
    ensures kind { AnyFaultIsOfTextOrSource result }
    ensures heard { ResultTellsIfSourceFailed result scanner.old.ahead scanner.new.ahead }
{
    let mut keys = HeaderKeys::new();
    let waiting = match header_reading::read_header(scanner, &mut keys) {
        Ok(waiting) => waiting,
        Err(fault) => return Err(fault),
    };
    scanner.begin_blank_run();
    match header_of_keys_or_fault_at_line(keys, scanner.line()) {
        Ok(header) => Ok((header, waiting)),
        Err(fault) => Err(fault),
    }
}
