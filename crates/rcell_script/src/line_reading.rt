//! Reads a script line by line.

ghost use Rattle.std.specs.Prelude.{◌≡◌, ◌≢◌, ◌<◌, ℕ, List, IfOk, IfErr, OnOk, Ok, Some};
ghost use Rattle.std.specs.Option.{option_map};
ghost use Rattle.cell_core_values.specs.Answers.{EqualsUnlessOutOfMemory};
ghost use Rattle.rcell_script.specs.KnownMaps.{known_names_after_command, made_map_name};
ghost use Rattle.rcell_script.specs.ScriptsRead.{state_before_first_line, state_with_statement, state_after_line_meaning, state_after_rule_line, kind_and_rules_after_rule_line, IsStateAfterLine, statements_after_last_line};
ghost use Rattle.rcell_script.specs.FittingCommands.{CommandFitsKnownMaps, LineFitsKnownMaps};
ghost use Rattle.rcell_script.specs.ScriptFaults.{HoldsUnlessOutOfMemoryAtLine};
ghost use Rattle.rcell_script.specs.ReadScripts.{ReportsMemoryAtLineZero};
ghost use Rattle.rcell_script.specs.parts.Sound.{ReadingStateFitsKnownMaps, UnfinishedReclassFitsKnownMaps};

use crate::command::Command;
use crate::heads::{MOST_LINE_BYTES, ScriptLineMeaning, meaning_of_line};
use crate::script_fault::{ScriptFault, ScriptKind};
use crate::statement::{Script, Statement};
use cell_cats::rules::{LineKind, Rules};
use cell_core::memory::Memory;
use cell_core::name::{Name, Names};
use std::alloc::Global;

/// An r.reclass whose rules are being read.
#[derive(Drop)]
pub(crate) struct UnfinishedReclass {
    line: u64,
    place: usize,
    target: Name,
    rules: Rules,
}

/// The state of the reader: the known names, the statements, and the r.reclass whose rules are being read, if any.
#[derive(Drop)]
pub(crate) struct ScriptReadingState {
    known: Names,
    statements: Script,
    pending: Option<UnfinishedReclass>,
}

/// The error if memory runs out.
pub(crate) const OUT_OF_MEMORY_FAULT: ScriptFault = ScriptFault {
    kind: ScriptKind::Memory,
    line: 0,
};

// Builds the error for a line. If memory ran out, the line is 0.
fn script_fault_at_line(line: u64, kind: ScriptKind) -> ScriptFault
    ensures other { kind ≢ ScriptKind.Memory → result ≡ record { kind = kind; line = line } }
    ensures kind { result.kind ≡ kind }
    ensures memory { kind ≡ ScriptKind.Memory → result.line ≡ 0 }
{
    match kind {
        ScriptKind::Memory => OUT_OF_MEMORY_FAULT,
        _ => ScriptFault { kind, line },
    }
}

// Copies names.
fn copied_known_names(alloc: Global, names: &Names) -> Result<Names, Memory>
    ensures { IfOk result (λ copy. copy ≡ names.now) }
{
    let mut copy = Names::new(alloc);
    for i in 0..names.len() {
        let name = names.name(i).copy(alloc)?;
        copy.push(name)?;
    }
    Ok(copy)
}

// Returns the name of the map that a command makes, if any.
fn made_map_name(command: &Command) -> Option<&Name>
    ensures { option_map (λ name. name.now) result ≡ made_map_name command.now }
{
    match command {
        Command::Mapcalc { target, .. } => Some(target),
        Command::Reclass { target, .. } => Some(target),
        Command::Clump { target, .. } => Some(target),
        _ => None,
    }
}

// Adds the name of the map that a command makes, if any, to the known names.
fn add_made_map_name(alloc: Global, known: &mut Names, command: &Command) -> Result<(), Memory>
    requires { CommandFitsKnownMaps known.old command.now }
    ensures { OnOk result (known.new ≡ known_names_after_command known.old command.now) }
{
    if let Some(name) = made_map_name(command) {
        known.push(name.copy(alloc)?)?;
    }
    Ok(())
}

// Reads a line among the rules of an r.reclass.
fn add_rule_line(rules: &mut Rules, line: &[u8]) -> Result<LineKind, ScriptKind>
    ensures { EqualsUnlessOutOfMemory ScriptKind.Memory (λ kind. (kind, rules.new)) result
        (kind_and_rules_after_rule_line rules.old line.now) }
{
    if line.len() > MOST_LINE_BYTES {
        return Err(ScriptKind::LongLine);
    }
    Ok(rules.add_line(line)?)
}

impl ScriptReadingState {
    /// Creates a reader that has read nothing and knows these names.
    ///
    /// # Errors
    ///
    /// Returns [`Memory`] if memory runs out.
    pub(crate) fn new(alloc: Global, known: &Names) -> Result<ScriptReadingState, Memory>
        ensures { IfOk result (λ read. read ≡ state_before_first_line known.now) }
    {
        let known = copied_known_names(alloc, known)?;
        Ok(ScriptReadingState {
            known,
            statements: Script::new(alloc),
            pending: None,
        })
    }

    // Adds a statement.
    fn state_with_statement(
        mut self,
        alloc: Global,
        line: u64,
        command: Command,
    ) -> Result<ScriptReadingState, Memory>
        requires { CommandFitsKnownMaps self.known command }
        ensures { IfOk result (λ read. read ≡ state_with_statement line command self) }
    {
        add_made_map_name(alloc, &mut self.known, &command)?;
        self.statements.push(Statement { line, command })?;
        self.pending = None;
        Ok(self)
    }

    // Continues after a line outside the rules of an r.reclass.
    fn with_head(
        self,
        alloc: Global,
        line: u64,
        head: ScriptLineMeaning,
    ) -> Result<ScriptReadingState, Memory>
        requires { LineFitsKnownMaps self.known head }
        ensures { IfOk result (λ read. state_after_line_meaning line self (Ok head) ≡ Ok read) }
    {
        match head {
            ScriptLineMeaning::Skipped => Ok(self),
            ScriptLineMeaning::Whole(command) => self.state_with_statement(alloc, line, command),
            ScriptLineMeaning::Opened { place, target } => Ok(ScriptReadingState {
                pending: Some(UnfinishedReclass {
                    line,
                    place,
                    target,
                    rules: Rules::new(alloc),
                }),
                ..self
            }),
        }
    }

    // Continues after a line among the rules of an r.reclass.
    fn with_rule(
        self,
        alloc: Global,
        line: u64,
        mut block: UnfinishedReclass,
        text: &[u8],
    ) -> Result<ScriptReadingState, ScriptFault>
        requires { UnfinishedReclassFitsKnownMaps self.known (Some block) }
        ensures next { HoldsUnlessOutOfMemoryAtLine
            (λ next. state_after_rule_line line self block
            (kind_and_rules_after_rule_line block.rules text.now) ≡ next) result }
        ensures memory { IfErr result ReportsMemoryAtLineZero }
    {
        match add_rule_line(&mut block.rules, text) {
            Ok(LineKind::End) => {
                let command = Command::Reclass {
                    place: block.place,
                    target: block.target,
                    rules: block.rules,
                };
                match self.state_with_statement(alloc, block.line, command) {
                    Ok(read) => Ok(read),
                    Err(_) => Err(OUT_OF_MEMORY_FAULT),
                }
            }
            Ok(_) => Ok(ScriptReadingState {
                pending: Some(block),
                ..self
            }),
            Err(kind) => Err(script_fault_at_line(line, kind)),
        }
    }
}

impl ScriptReadingState {
    /// Reads one more line.
    ///
    /// # Errors
    ///
    /// Returns the error in the line, with its number, or [`ScriptKind::Memory`] with line 0 if memory runs out.
    pub(crate) fn with_line(
        self,
        alloc: Global,
        line: u64,
        text: &[u8],
    ) -> Result<ScriptReadingState, ScriptFault>
        requires line { 0 < line }
        requires fits { UnfinishedReclassFitsKnownMaps self.known self.pending }
        ensures next { HoldsUnlessOutOfMemoryAtLine (IsStateAfterLine line self text.now) result }
        ensures sound { IfOk result (λ read. (first : List (List ℕ))
            → ReadingStateFitsKnownMaps first self
            → ReadingStateFitsKnownMaps first read) }
        ensures memory { IfErr result ReportsMemoryAtLineZero }
    {
        let ScriptReadingState {
            known,
            statements,
            pending,
        } = self;
        let read = ScriptReadingState {
            known,
            statements,
            pending: None,
        };
        if let Some(block) = pending {
            return read.with_rule(alloc, line, block, text);
        }
        let head = match meaning_of_line(alloc, &read.known, text) {
            Ok(head) => head,
            Err(kind) => return Err(script_fault_at_line(line, kind)),
        };
        match read.with_head(alloc, line, head) {
            Ok(read) => Ok(read),
            Err(_) => Err(OUT_OF_MEMORY_FAULT),
        }
    }

    /// Returns the statements after the last line.
    ///
    /// # Errors
    ///
    /// Returns [`ScriptKind::MissingEnd`] with the line of an r.reclass whose rules have no `end`.
    pub(crate) fn into_script(self) -> Result<Script, ScriptFault>
        ensures { result ≡ statements_after_last_line self }
    {
        let ScriptReadingState {
            known: _,
            statements,
            pending,
        } = self;
        match pending {
            None => Ok(statements),
            Some(block) => Err(ScriptFault {
                kind: ScriptKind::MissingEnd,
                line: block.line,
            }),
        }
    }
}
