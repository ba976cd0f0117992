//! The outcome of a run.

ghost use Rattle.std.specs.Prelude.{◌≡◌};
ghost use Rattle.rcell.specs.runs.Statuses.{exit_status_of_grid_kind, exit_status_of_script_kind, exit_status_of_run_fault};

pub use crate::run_fault::RunFault;
use cell_ascii::grid_fault::GridKind;
use rcell_script::script_fault::ScriptKind;

/// The outcome of a run.
#[derive(Clone, Copy, Debug, PartialEq, Eq)]
pub struct Outcome {
    /// 0 for success, 1 if a grid or the script was rejected, 3 if memory ran out, 4 if a read or write failed.
    pub status: u8,
    /// The number of bytes that the sink accepted, capped at `u64::MAX`.
    pub written: u64,
    /// The error, if the run failed.
    pub fault: Option<RunFault>,
}

/// The outcome of a run, and its sources after their last reads.
#[derive(Drop)]
pub struct OutcomeWithSources<R> {
    /// The outcome of the run.
    pub outcome: Outcome,
    /// The source of the script.
    pub script: R,
    /// The sources of the grids that were read, in order.
    pub grids: Vec<R>,
}

fn exit_status_of_grid_kind(kind: GridKind) -> u8
    ensures { result ≡ exit_status_of_grid_kind kind }
{
    match kind {
        GridKind::Read => 4,
        GridKind::Memory => 3,
        _ => 1,
    }
}

fn exit_status_of_script_kind(kind: ScriptKind) -> u8
    ensures { result ≡ exit_status_of_script_kind kind }
{
    match kind {
        ScriptKind::Memory => 3,
        _ => 1,
    }
}

/// Returns the exit status for an error.
pub fn exit_status_of_fault(fault: RunFault) -> u8
    ensures { result ≡ exit_status_of_run_fault fault }
{
    match fault {
        RunFault::GridTwice { .. } => 1,
        RunFault::GridRegion { .. } => 1,
        RunFault::Grid { grid: _, fault } => exit_status_of_grid_kind(fault.kind),
        RunFault::ScriptRead => 4,
        RunFault::ScriptSize => 1,
        RunFault::Script(fault) => exit_status_of_script_kind(fault.kind),
        RunFault::Memory { .. } => 3,
        RunFault::Write => 4,
    }
}
