//! Reads the command in a line.

ghost use Rattle.std.specs.Prelude.{◌≡◌, IfOk};
ghost use Rattle.rcell_script.specs.OptionReading.{values_of_borrowed_texts};
ghost use Rattle.rcell_script.specs.Commands.{meaning_by_command_name, meaning_of_line_words, is_mapcalc_line, IsLineMeaning};
ghost use Rattle.rcell_script.specs.FittingCommands.{LineFitsKnownMaps};
ghost use Rattle.rcell_script.specs.ScriptFaults.{HoldsUnlessOutOfMemory};
ghost use Rattle.rcell_script.specs.Skipped.{starts_comment};
ghost use Rattle.rcell_script.specs.parts.Giving.{IsScriptReadingUnlessMemory};

use crate::command::Command;
use crate::r_clump::clump_command_of_words;
use crate::r_mapcalc::mapcalc_command;
use crate::r_out_ascii::out_ascii_command_of_words;
use crate::r_reclass::reclass_input_and_output;
use crate::r_stats::stats_command_of_words;
use crate::script_fault::ScriptKind;
use cell_core::name::{Name, Names};
use cell_core_values::words::words_of_line;
use std::alloc::Global;

/// Maximum length of a line in bytes.
pub const MOST_LINE_BYTES: usize = 65535;

/// The meaning of a line that is not among the rules of an r.reclass.
#[derive(Drop)]
pub enum ScriptLineMeaning {
    /// A blank line or a comment.
    Skipped,
    /// A command that needs no further lines.
    Whole(Command),
    /// The start of an r.reclass. Its rules follow on the next lines.
    Opened { place: usize, target: Name },
}

// Returns whether a word starts a comment.
fn starts_comment(word: &[u8]) -> bool
    ensures { result ≡ starts_comment word.now }
{
    match word {
        [] => false,
        [first, ..] => *first == b'#',
    }
}

// Returns the meaning of a line, given its command name and the words after it.
#[tactic(auto, using(crate::proofs::FaultLemmas::reported))]
fn meaning_by_command_name(
    alloc: Global,
    known: &Names,
    name: &[u8],
    words: &[&[u8]],
) -> Result<ScriptLineMeaning, ScriptKind>
    ensures head { IsScriptReadingUnlessMemory result (meaning_by_command_name known.now name.now
        (values_of_borrowed_texts words.now)) }
    ensures fits { IfOk result (LineFitsKnownMaps known.now) }
{
    if name == b"r.stats".as_slice() {
        Ok(ScriptLineMeaning::Whole(stats_command_of_words(alloc, known, words)?))
    } else if name == b"r.out.ascii".as_slice() {
        Ok(ScriptLineMeaning::Whole(out_ascii_command_of_words(alloc, known, words)?))
    } else if name == b"r.clump".as_slice() {
        Ok(ScriptLineMeaning::Whole(clump_command_of_words(alloc, known, words)?))
    } else if name == b"r.reclass".as_slice() {
        let (place, target) = reclass_input_and_output(alloc, known, words)?;
        Ok(ScriptLineMeaning::Opened { place, target })
    } else {
        Err(ScriptKind::UnknownCommand)
    }
}

// Returns the meaning of a line, given its words.
fn meaning_of_line_words(
    alloc: Global,
    known: &Names,
    words: &[&[u8]],
) -> Result<ScriptLineMeaning, ScriptKind>
    ensures head { IsScriptReadingUnlessMemory result (meaning_of_line_words known.now
        (values_of_borrowed_texts words.now)) }
    ensures fits { IfOk result (LineFitsKnownMaps known.now) }
{
    let Some((name, others)) = words.split_first() else {
        return Ok(ScriptLineMeaning::Skipped);
    };
    if starts_comment(*name) {
        return Ok(ScriptLineMeaning::Skipped);
    }
    meaning_by_command_name(alloc, known, *name, others)
}

// Returns whether the first word is r.mapcalc.
fn is_mapcalc_line(words: &[&[u8]]) -> bool
    ensures { result ≡ is_mapcalc_line (values_of_borrowed_texts words.now) }
{
    match words {
        [] => false,
        [first, ..] => *first == b"r.mapcalc".as_slice(),
    }
}

/// Returns the meaning of a line that is not among the rules of an r.reclass. `known` contains the known maps.
///
/// # Errors
///
/// Returns the first error that applies: [`ScriptKind::LongLine`], [`ScriptKind::UnknownCommand`], or the error of the
/// command. Returns [`ScriptKind::Memory`] if memory runs out.
pub fn meaning_of_line(
    alloc: Global,
    known: &Names,
    line: &[u8],
) -> Result<ScriptLineMeaning, ScriptKind>
    ensures head { HoldsUnlessOutOfMemory (IsLineMeaning known.now line.now) result }
    ensures fits { IfOk result (LineFitsKnownMaps known.now) }
{
    if line.len() > MOST_LINE_BYTES {
        return Err(ScriptKind::LongLine);
    }
    let words = words_of_line(alloc, line)?;
    if is_mapcalc_line(&words) {
        return mapcalc_command(alloc, known, line);
    }
    meaning_of_line_words(alloc, known, &words)
}
