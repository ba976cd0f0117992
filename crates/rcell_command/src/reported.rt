//! Prints why a program failed, and determines the exit status.

ghost use Rattle.std.specs.Prelude.{◌≡◌, Option};
ghost use Rattle.rcell_command.specs.Processes.{HasOnlyReportedError};
ghost use Rattle.rcell_command.specs.Reported.{ErrorPlaceValue, error_place_on_line};

use crate::process::Process;
use crate::shown::EscapedText;
use std::fmt;
use std::marker::Model;

/// The source of an error, its line, and the exit status (profile). The line is 0 if the error has none. The
/// status is 1 if a text was rejected, 2 for the command line, 3 if memory ran out, and 4 if a file could not be
/// opened, read or written.
#[derive(Drop)]
pub struct ErrorPlace<'a> {
    pub source: &'a [u8],
    pub line: u64,
    pub status: u8,
}

impl<'a> Model for ErrorPlace<'a> {
    ghost use Rattle.rcell_command.specs.Reported.{ErrorPlaceValue};

    ghost Value = { ErrorPlaceValue };

    ghost view = { λ p. record { source = p.source.now; line = p.line; status = p.status } };
}

/// Creates the place of an error in a line of a source.
pub fn error_place_on_line<'a>(source: &'a [u8], line: u64, status: u8) -> ErrorPlace<'a>
    ensures { result ≡ error_place_on_line source.now line status }
{
    ErrorPlace {
        source,
        line,
        status,
    }
}

/// The result of a program's work. It is displayed as the text of its error.
pub trait Reported: fmt::Display {
    /// The place of the error, or `None` if there is no error.
    ghost place: { Self → Option ErrorPlaceValue };

    /// Returns the place of the error, or `None` if there is no error.
    fn place(&self) -> Option<ErrorPlace<'_>>
        ensures { result ≡ place self.now };
}

/// Prints the line `PROGRAM: SOURCE:LINE: TEXT` for an error (profile) to standard error. Returns the exit
/// status, which is 0 if there is no error. The status does not depend on whether standard error accepts the line.
pub fn report_error<P: Process, T: Reported>(process: &mut P, program: &str, reported: &T) -> u8
    ensures { HasOnlyReportedError P.opened P.errors P.failed process.old process.new program.now
        (T.place reported.now) result }
{
    let Some(place) = reported.place() else {
        return 0;
    };
    let _ = process.print_error(program, &place, reported);
    place.status
}
