//! Scripts: one command per line (GRASS manual: r.mapcalc, r.reclass, r.clump, r.stats, r.out.ascii). Its options may be
//! given in any order. The rules of an r.reclass are on the lines after it.
//!
//! - `script_parsing`: `parse_script` reads a text, given the names of the known maps. Returns a `Script`, or the first
//!   `ScriptFault` with its line, from 1
//! - `statement`: `Script`, a list of statements; `Statement`, a `Command` and its line
//! - specs/Scripts.antt: which texts are scripts; specs/ScriptsRead.antt: how scripts are read
//! - `law`: a text denotes at most one list of statements, and then has no error
//! - private: `lines`; `line_reading`: the statements read so far, and an r.reclass whose rules follow
//! - `heads`: `head_of` reads a line, given the known names. Returns a `ScriptLineMeaning` or a `ScriptKind`
//! - `command`: `Command`, what a statement does, with the indices of its maps on the shelf
//! - `script_fault`: `ScriptKind`, an error; `ScriptFault`, an error and its line
//! - one module per command: private `r_reclass`, `r_clump`, `r_stats`, `r_out_ascii`; `r_mapcalc`, whose
//!   `assignment_with_blanked_command` returns a line with blanks in place of the command name
//! - `options`: `options_in_words` reads words as `Options`; `maps`: the maps that options name; `null_text`: the null texts
//!   of grids and tables; `option_fault`: `OptionFault`
//! - specs/CommandSpelling.antt: which line spells which command; specs/Options.antt: which options words spell; one
//!   file per command
//!
//! A script of four statements:
//!
//! ```
//! let script = parse_script(alloc, text, &one_grid(alloc)?)?;
//! let [grid, classes, clumps, table] = script.statements() else {
//!     return Err("another number of statements".into());
//! };
//! assert_same!(rt;
//!     (grid.line, classes.line, clumps.line, table.line),
//!     (2, 4, 8, 9)
//! );
//! ```
//!
//! For `r.stats -cl -nN input=c,g separator=pipe null_value=a:b after=1,*`:
//!
//! ```
//! let Command::Stats { places, options } = command else {
//!     return Err("no table".into());
//! };
//! assert_same!(rt;
//!     (places.as_slice(), options.skip),
//!     ([2, 0].as_slice(), Skip::AnyNull)
//! );
//! ```
#![tactic(auto)]

pub mod command;
pub mod heads;
pub mod law;
mod line_reading;
mod lines;
pub mod maps;
pub mod null_text;
pub mod option_fault;
pub mod options;
mod r_clump;
pub mod r_mapcalc;
mod r_out_ascii;
mod r_reclass;
mod r_stats;
pub mod script_fault;
pub mod script_parsing;
pub mod statement;
