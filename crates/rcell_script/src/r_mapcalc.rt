//! Reads the line of an r.mapcalc.

ghost use Rattle.std.specs.Prelude.{◌≡◌, ◌≤◌, IfOk, length};
ghost use Rattle.rcell_script.specs.RMapcalc.{rest_after_first_word, text_after_command_name, assignment_with_blanked_command};
ghost use Rattle.rcell_script.specs.Commands.{mapcalc_command, IsMapcalcLineMeaning};
ghost use Rattle.rcell_script.specs.FittingCommands.{LineFitsKnownMaps};
ghost use Rattle.rcell_script.specs.ScriptFaults.{HoldsUnlessOutOfMemory};
ghost use Rattle.rcell_script.specs.parts.Giving.{IsScriptReadingUnlessMemory};

use crate::command::Command;
use crate::heads::ScriptLineMeaning;
use crate::script_fault::ScriptKind;
use cell_calc_language::assignment::{Assignment, parse};
use cell_calc_language::binding::resolve;
use cell_core::memory::Memory;
use cell_core::name::Names;
use cell_core_values::blanks::{is_blank, without_leading_blanks};
use std::alloc::Global;

fn text_after_first_word<'a>(text: &'a [u8]) -> &'a [u8]
    ensures text { result.now ≡ rest_after_first_word text.now }
    ensures shorter { length result.now ≤ length text.now }
{
    let mut rest = text;
    while let [b, others @ ..] = rest {
        if is_blank(*b) {
            return rest;
        }
        rest = others;
    }
    rest
}

// Returns the text after the command name of a line.
fn text_after_command_name<'a>(line: &'a [u8]) -> &'a [u8]
    ensures text { result.now ≡ text_after_command_name line.now }
    ensures shorter { length result.now ≤ length line.now }
{
    text_after_first_word(without_leading_blanks(line))
}

/// Returns the line with blanks in place of the command name, so that columns do not change.
///
/// # Errors
///
/// Returns [`Memory`] if memory runs out.
pub fn assignment_with_blanked_command(alloc: Global, line: &[u8]) -> Result<Vec<u8>, Memory>
    ensures text { IfOk result (λ text. text.items ≡ assignment_with_blanked_command line.now) }
    ensures length { IfOk result (λ text. length text.items ≡ length line.now) }
{
    let rest = text_after_command_name(line);
    let mut text = vec![in alloc; b' '; line.len() - rest.len()]?;
    text.extend_from_slice(rest)?;
    Ok(text)
}

// Returns the command for an assignment.
#[tactic(auto, using(crate::proofs::MapcalcLemmas::unbound, crate::proofs::MapcalcLemmas::fits_known))]
fn mapcalc_command_of_assignment(
    alloc: Global,
    known: &Names,
    a: Assignment,
) -> Result<ScriptLineMeaning, ScriptKind>
    ensures head { IsScriptReadingUnlessMemory result (mapcalc_command known.now a) }
    ensures fits { IfOk result (LineFitsKnownMaps known.now) }
{
    let Assignment { target, expr } = a;
    let bound = resolve(alloc, &expr, known)?;
    match known.find(target.bytes()) {
        Some(_) => Err(ScriptKind::MapExists),
        None => Ok(ScriptLineMeaning::Whole(Command::Mapcalc { target, bound })),
    }
}

/// Reads the line of an r.mapcalc, which has at most 65,535 bytes. `known` contains the known maps.
///
/// # Errors
///
/// Returns the first error that applies: [`ScriptKind::Calc`] with the error in the assignment or with its first
/// unknown map, or [`ScriptKind::MapExists`]. Columns are columns of the line. Returns [`ScriptKind::Memory`] if memory
/// runs out.
#[tactic(auto, using(crate::proofs::MapcalcLemmas::assigned, crate::proofs::MapcalcLemmas::unassigned))]
pub(crate) fn mapcalc_command(
    alloc: Global,
    known: &Names,
    line: &[u8],
) -> Result<ScriptLineMeaning, ScriptKind>
    requires { length line.now ≤ 65535 }
    ensures head { HoldsUnlessOutOfMemory (IsMapcalcLineMeaning known.now line.now) result }
    ensures fits { IfOk result (LineFitsKnownMaps known.now) }
{
    let text = assignment_with_blanked_command(alloc, line)?;
    let a = parse(alloc, &text)?;
    mapcalc_command_of_assignment(alloc, known, a)
}
