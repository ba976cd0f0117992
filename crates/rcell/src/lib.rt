//! Map algebra and category tools over maps of integers. A run reads grids and a script, and writes the tables and
//! grids that the script asks for (GRASS manual: r.in.ascii, r.mapcalc, r.reclass, r.clump, r.stats, r.out.ascii). It
//! works on sources and sinks, and opens no files.
//!
//! - `run`, in private `running`: reads all grids, then the script, and then executes the statements
//! - `outcome`: `OutcomeWithSources`: the outcome of a run, and its sources after their last reads. `Outcome`: the exit status, the
//!   number of bytes written, and the `RunFault` (in `run_fault`). The status is 1 for bad input, 3 if memory runs out,
//!   4 if a read or write fails
//! - `report`: `fault_report_line`, the error line `rcell: SOURCE:LINE: TEXT`
//! - `loading`, `script_bytes`: read the grids onto a shelf, and the bytes of the script
//! - `making`, `map_of_values`: make the maps of statements; `evaluate` makes the map of an expression
//! - `execution`: `execute` executes the statements in order
//! - private: `tables` writes the output of r.stats
//! - `law`: there is exactly one output, and the outputs of two parts of a script are concatenated; known sources agree
//!   with every supposed content
//!
//! ```
//! let mut named = Vec::new(alloc);
//! for (name, text) in grids {
//!     let name = Name::read(alloc, *name)?;
//!     let text = source(alloc, *text, false)?;
//!     named.push((name, text))?;
//! }
//! if named.is_empty() {
//!     Err("no grid")?;
//! }
//! Ok(run(alloc, source(alloc, script, false)?, named, out).outcome)
//! ```
#![tactic(auto)]

pub mod execution;
pub mod law;
pub mod loading;
pub mod making;
pub mod map_of_values;
pub mod outcome;
pub mod report;
pub mod run_fault;
pub(crate) mod running;
pub mod script_bytes;
pub(crate) mod tables;

pub use map_of_values::evaluate;
pub use outcome::{Outcome, OutcomeWithSources, RunFault};
pub use rcell_script::script_fault::{ScriptFault, ScriptKind};
pub use rcell_script::script_parsing::parse_script;
pub use running::run;
