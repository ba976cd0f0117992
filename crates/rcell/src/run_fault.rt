//! The errors of a run.

use cell_ascii::grid_fault::GridFault;
use rcell_script::script_fault::ScriptFault;

/// Why a run failed. `grid` is the index of a grid, from 0.
#[derive(Clone, Copy, Debug, PartialEq, Eq)]
pub enum RunFault {
    /// A grid's name is already on the shelf.
    GridTwice { grid: usize },
    /// A grid's region differs from the first grid's.
    GridRegion { grid: usize },
    /// A grid could not be read.
    Grid { grid: usize, fault: GridFault },
    /// The reader of the script failed.
    ScriptRead,
    /// The script is longer than 1,048,576 bytes.
    ScriptSize,
    /// The script was rejected.
    Script(ScriptFault),
    /// Memory ran out, at the line of the statement being executed, or at line 0 before execution.
    Memory { line: u64 },
    /// A write or the final flush failed.
    Write,
}
