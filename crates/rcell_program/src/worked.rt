//! The result of the program's work.

use cell_core::name::Name;
use rcell::OutcomeWithSources;

/// The exit status, and the run with its grids' names and the files that it read.
#[derive(Drop)]
pub struct FinishedWork<F> {
    /// The exit status.
    pub status: u8,
    /// The names of the run's grids, in the order of the words; empty if no run was started.
    pub names: Vec<Name>,
    /// The run and its sources after their last reads, or `None` if no run was started.
    pub ran: Option<OutcomeWithSources<F>>,
}
