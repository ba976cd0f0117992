//! Collects the names of all maps of a script.

ghost use Rattle.std.specs.Prelude.{◌≡◌, IfOk, OnOk};
ghost use Rattle.rcell_script.specs.FittingCommands.{CommandFitsKnownMaps};
ghost use Rattle.rcell_script.specs.FittingScripts.{StatementsFitKnownMaps};
ghost use Rattle.rcell_script.specs.KnownMaps.{known_names_after_command};
ghost use Rattle.rcell_pipe_response.specs.QuestionFrames.{names_of_all_maps};

use cell_core::memory::Memory;
use cell_core::name::Names;
use rcell_script::statement::{Command, Statement};
use std::alloc::Global;

// Adds the name of the map that a command makes, if it makes one.
fn push_made_map_name(alloc: Global, names: &mut Names, command: &Command) -> Result<(), Memory>
    requires { CommandFitsKnownMaps names.old command.now }
    ensures { OnOk result (names.new ≡ known_names_after_command names.old command.now) }
{
    match command {
        Command::Mapcalc { target, .. } => {
            let name = target.copy(alloc)?;
            names.push(name)
        }
        Command::Reclass { target, .. } => {
            let name = target.copy(alloc)?;
            names.push(name)
        }
        Command::Clump { target, .. } => {
            let name = target.copy(alloc)?;
            names.push(name)
        }
        _ => Ok(()),
    }
}

/// Returns the given names and the names of the maps that statements make.
///
/// # Errors
///
/// Returns [`Memory`] if memory runs out.
pub fn names_of_all_maps(
    alloc: Global,
    mut names: Names,
    statements: &[Statement],
) -> Result<Names, Memory>
    requires { StatementsFitKnownMaps names statements.now }
    ensures { IfOk result (λ all. all ≡ names_of_all_maps names statements.now) }
{
    for statement in statements {
        push_made_map_name(alloc, &mut names, &statement.command)?;
    }
    Ok(names)
}
