//! The command line of a program: its words, the files that they name, and the errors that the program reports.
//!
//! - `process`: the trait `Process`: the words of the command line, the files that the program opens, and its standard
//!   error
//! - `system_process`, `memory_process`: the running process, and a process in memory
//! - `arguments`: `first_word_and_rest` returns the first word after the program's own name and the words that follow it, as
//!   clap finds them; `has_word_starting_with_hyphen`
//! - `reported`: `report_error` prints the error line of a `Reported` value and returns the exit status
//! - `shown`: displays texts without control characters
//!
//! Functions that can fail accept the two errors that a program reports: one if memory runs out, and one for any other
//! error.
#![tactic(auto)]

pub mod arguments;
pub mod memory_process;
pub mod process;
pub mod reported;
pub mod shown;
pub mod system_process;
