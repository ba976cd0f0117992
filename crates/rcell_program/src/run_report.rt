//! Reports the outcome of a run.

ghost use Rattle.rcell_program.specs.Refusals.{error_place_of_run};

use cell_core::name::Name;
use rcell::outcome::Outcome;
use rcell::report::fault_report_line;
use rcell_command::reported::{ErrorPlace, Reported};
use std::fmt;

/// The outcome of a run, and the names of its grids.
#[derive(Drop)]
pub struct RunReport<'a> {
    pub outcome: Outcome,
    pub names: &'a [Name],
}

impl<'a> fmt::Display for RunReport<'a> {
    fn fmt<W: fmt::Write>(&self, f: &mut fmt::Formatter<W>) -> fmt::Result {
        match fault_report_line(&self.outcome, self.names) {
            Some(line) => {
                let text = line.text;
                write!(f, "{text}")
            }
            None => Ok(()),
        }
    }
}

impl<'a> Reported for RunReport<'a> {
    ghost place = { λ r. error_place_of_run r.names.now r.outcome };

    fn place(&self) -> Option<ErrorPlace<'_>> {
        let reported = fault_report_line(&self.outcome, self.names)?;
        Some(ErrorPlace {
            source: reported.source,
            line: reported.line,
            status: self.outcome.status,
        })
    }
}
