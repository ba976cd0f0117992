//! Formats the line that reports why a run failed.

ghost use Rattle.std.specs.Prelude.{◌≡◌};
ghost use Rattle.std.specs.Option.{option_map};
ghost use Rattle.rcell.specs.Reports.{grid_name_at_place, source_name_of_fault, fault_line_number, text_of_run_fault, fault_report_line_parts};

use crate::outcome::{Outcome, RunFault};
use bstr::ByteSlice;
use cell_ascii::grid_fault::GridKind;
use cell_core::name::Name;
use rcell_script::script_fault::ScriptKind;
use std::fmt;
use thiserror::Error;

/// The text of a run's error.
#[derive(Clone, Copy, Debug, PartialEq, Eq, Error)]
pub enum FaultReportText {
    #[error("name used twice")]
    GridTwice,
    #[error("other region")]
    GridRegion,
    #[error(transparent)]
    Grid(GridKind),
    #[error("read failed")]
    ScriptRead,
    #[error("script too long")]
    ScriptSize,
    #[error(transparent)]
    Script(ScriptKind),
    #[error("no memory")]
    Memory,
    #[error("write failed after {written} bytes")]
    Write { written: u64 },
}

/// A line `rcell: SOURCE:LINE: TEXT` (profile). The line number is 0 if the error has none.
#[derive(Clone, Copy, Debug)]
pub struct FaultReportLine<'a, T> {
    pub source: &'a [u8],
    pub line: u64,
    pub text: T,
}

impl<'a, T: fmt::Display> fmt::Display for FaultReportLine<'a, T> {
    fn fmt<W: fmt::Write>(&self, f: &mut fmt::Formatter<W>) -> fmt::Result {
        let source = self.source.as_bstr();
        let line = self.line;
        let text = &self.text;
        write!(f, "rcell: {source}:{line}: {text}")
    }
}

fn grid_name_by_place<'a>(names: &'a [Name], grid: usize) -> &'a [u8]
    ensures { result.now ≡ grid_name_at_place names.now grid }
{
    match names.get(grid) {
        Some(name) => name.bytes(),
        None => b"",
    }
}

fn source_name_of_fault<'a>(names: &'a [Name], fault: RunFault) -> &'a [u8]
    ensures { result.now ≡ source_name_of_fault names.now fault }
{
    match fault {
        RunFault::GridTwice { grid } => grid_name_by_place(names, grid),
        RunFault::GridRegion { grid } => grid_name_by_place(names, grid),
        RunFault::Grid { grid, fault: _ } => grid_name_by_place(names, grid),
        RunFault::ScriptRead => b"script",
        RunFault::ScriptSize => b"script",
        RunFault::Script(_) => b"script",
        RunFault::Memory { .. } => b"script",
        RunFault::Write => b"output",
    }
}

fn fault_line_number(fault: RunFault) -> u64
    ensures { result ≡ fault_line_number fault }
{
    match fault {
        RunFault::GridTwice { .. } => 0,
        RunFault::GridRegion { .. } => 0,
        RunFault::Grid { grid: _, fault } => fault.line,
        RunFault::ScriptRead => 0,
        RunFault::ScriptSize => 0,
        RunFault::Script(fault) => fault.line,
        RunFault::Memory { line } => line,
        RunFault::Write => 0,
    }
}

fn text_of_run_fault(written: u64, fault: RunFault) -> FaultReportText
    ensures { result ≡ text_of_run_fault written fault }
{
    match fault {
        RunFault::GridTwice { .. } => FaultReportText::GridTwice,
        RunFault::GridRegion { .. } => FaultReportText::GridRegion,
        RunFault::Grid { grid: _, fault } => FaultReportText::Grid(fault.kind),
        RunFault::ScriptRead => FaultReportText::ScriptRead,
        RunFault::ScriptSize => FaultReportText::ScriptSize,
        RunFault::Script(fault) => FaultReportText::Script(fault.kind),
        RunFault::Memory { .. } => FaultReportText::Memory,
        RunFault::Write => FaultReportText::Write { written },
    }
}

/// Returns the line that reports the error of an outcome, or `None` if there is no error. `names` contains the names of
/// the grids, in the order of the run. If a name is missing, the source is empty. Allocates no memory.
pub fn fault_report_line<'a>(
    outcome: &Outcome,
    names: &'a [Name],
) -> Option<FaultReportLine<'a, FaultReportText>>
    ensures { option_map (λ reported. (reported.source.now, (reported.line, reported.text))) result
        ≡ option_map (fault_report_line_parts names.now outcome.now.written) outcome.now.fault }
{
    match outcome.fault {
        Some(fault) => Some(FaultReportLine {
            source: source_name_of_fault(names, fault),
            line: fault_line_number(fault),
            text: text_of_run_fault(outcome.written, fault),
        }),
        None => None,
    }
}
