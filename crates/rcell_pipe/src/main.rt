//! The program `rcell-pipe`: reads a request (maps, given as bytes or by name, and a script) from standard input, and
//! writes its response to standard output.
//!
//! It accepts no arguments, opens no files and prints no error messages: `main` uses only standard input and output.
//!
//! - `exchanging`: `exchange` does all the work
//!
//! Example: `main` below connects `exchange` to `stdin` and `stdout`.
#![tactic(auto)]

mod exchanging;

use crate::exchanging::exchange;
use cell_core::sink::WriteSink;
use cell_core::source::ReadSource;
use std::io;
use std::process::ExitCode;

fn main(rt: HostRuntime) -> ExitCode {
    let input = ReadSource::new(rt.reader());
    let mut out = WriteSink::new(io::writer(&rt));
    ExitCode::from(exchange(rt.alloc(), input, &mut out).status)
}
