//! The statements of a script.

ghost use Rattle.std.specs.Prelude.{◌≡◌, OnOk, OnErr, ◌++◌, [], ◌∷◌};

pub use crate::command::{Command, MapPlaces, StatsOptions};
use cell_core::memory::Memory;
use std::alloc::Global;
use std::marker::Model;

/// A command, and the number of its line.
#[derive(Drop)]
pub struct Statement {
    pub line: u64,
    pub command: Command,
}

/// A list of statements, in order.
#[derive(Drop)]
pub struct Script {
    statements: Vec<Statement>,
}

impl Model for Script {
    ghost use Rattle.std.specs.Prelude.{List};
    ghost use Rattle.std.specs.Coded.{codes};
    ghost use Rattle.cell_calc_language.specs.contracts.bound.Bound as bound;
    ghost use Rattle.rcell_script.specs.declared.statement.Statement.{Statement};

    ghost Value = { List Statement };

    ghost coded = { Prim.hlevel (codes, bound.the_row.coded) };

    ghost view = { λ s. s.statements.items };
}

impl Script {
    // Creates a script without statements.
    pub(crate) fn new(alloc: Global) -> Script
        ensures { result ≡ [] }
    {
        Script {
            statements: Vec::new(alloc),
        }
    }

    // Appends a statement.
    pub(crate) fn push(&mut self, statement: Statement) -> Result<(), Memory>
        ensures ok { OnOk result (self.new ≡ self.old ++ statement ∷ []) }
        ensures err { OnErr result (self.new ≡ self.old) }
    {
        self.statements.push(statement)?;
        Ok(())
    }

    /// Returns the statements as a slice.
    pub fn statements(&self) -> &[Statement]
        ensures { result.now ≡ self.now }
    {
        &self.statements
    }
}
