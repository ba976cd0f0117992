//! The program `rcell`: runs a script over grids in files, `rcell SCRIPT NAME=PATH...`.
//!
//! `rcell::run` does the work. This crate handles arguments, files and errors, in the order of work:
//! - `working`: `work` does all that the program does, for any `Process`, and returns `Worked`
//! - `command_words`: `read_request_words` reads arguments as a `RunRequest`
//! - `opening`: `open_files` opens the script and the grids
//! - `refusal`, `run_report`: why no run was started, and why a run failed
//!
//! Example: cases/five-commands. `args` contains the arguments, `script` the script, and `stdout` the output.
#![tactic(auto)]

mod command_words;
mod opening;
mod refusal;
mod run_report;
mod worked;
mod working;

use crate::working::work;
use cell_core::sink::WriteSink;
use rcell_command::system_process::SystemProcess;
use std::io;
use std::process::ExitCode;

fn main(rt: HostRuntime) -> ExitCode {
    let mut process = SystemProcess::new(&rt);
    let mut out = WriteSink::new(io::writer(&rt));
    ExitCode::from(work(rt.alloc(), &mut process, &mut out).status)
}
