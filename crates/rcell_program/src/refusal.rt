//! Errors that occur before a run is started.

ghost use Rattle.std.specs.Prelude.{Some};

use cell_core::name::Name;
use rcell_command::reported::{ErrorPlace, Reported, error_place_on_line};
use std::fmt;
use thiserror::Error;

/// Why no run was started.
#[derive(Clone, Copy, Debug, PartialEq, Eq, Error)]
pub enum Refusal {
    /// Fewer than two words follow the program's own name, one of them begins with `-`, or a word is not UTF-8.
    #[error("usage: rcell SCRIPT NAME=PATH...")]
    Usage,
    /// The word at this position is not NAME=PATH. SCRIPT has position 1.
    #[error("bad grid argument")]
    GridWord { place: u64 },
    /// Memory ran out.
    #[error("no memory")]
    Memory,
    /// The script can't be opened.
    #[error("cannot open")]
    ScriptFile,
    /// The file of the grid with this index, from 0, can't be opened.
    #[error("cannot open")]
    GridFile { grid: usize },
}

/// An error before a run, and the names of the grids.
#[derive(Drop)]
pub struct RefusalReport<'a> {
    pub refusal: Refusal,
    pub names: &'a [Name],
}

impl<'a> fmt::Display for RefusalReport<'a> {
    fn fmt<W: fmt::Write>(&self, f: &mut fmt::Formatter<W>) -> fmt::Result {
        let refusal = self.refusal;
        write!(f, "{refusal}")
    }
}

impl<'a> Reported for RefusalReport<'a> {
    ghost use Rattle.rcell_program.specs.Refusals.{error_place_of_refusal};

    ghost place = { λ r. Some (error_place_of_refusal r.names.now r.refusal) };

    fn place(&self) -> Option<ErrorPlace<'_>> {
        Some(match self.refusal {
            Refusal::Usage => error_place_on_line(b"arguments", 0, 2),
            Refusal::GridWord { place } => error_place_on_line(b"arguments", place, 2),
            Refusal::Memory => error_place_on_line(b"arguments", 0, 3),
            Refusal::ScriptFile => error_place_on_line(b"script", 0, 4),
            Refusal::GridFile { grid } => match self.names.get(grid) {
                Some(name) => error_place_on_line(name.bytes(), 0, 4),
                None => error_place_on_line(b"", 0, 4),
            },
        })
    }
}
