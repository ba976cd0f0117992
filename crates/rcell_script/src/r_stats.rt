//! Reads the words of r.stats.

ghost use Rattle.std.specs.Prelude.{◌≡◌, ◌≤◌, IfOk, IfSome, length};
ghost use Rattle.std.specs.Option.{option_map};
ghost use Rattle.rcell_script.specs.OptionReading.{values_of_borrowed_texts};
ghost use Rattle.rcell_script.specs.RStats.{skip_of_null_flags};
ghost use Rattle.rcell_script.specs.Commands.{combination_in_after_option, stats_options_of_given_options, stats_command_of_words};
ghost use Rattle.rcell_script.specs.FittingCommands.{CommandFitsKnownMaps};
ghost use Rattle.rcell_script.specs.parts.Giving.{IsScriptReadingUnlessMemory};

use crate::command::{Command, StatsOptions};
use crate::maps::input_map_places;
use crate::options::{CommandWithOptions, Options, options_in_words};
use crate::script_fault::ScriptKind;
use cell_core::memory::Memory;
use cell_core::name::Names;
use cell_stats_combinations::combination::Combo;
use cell_stats_combinations::skip::Skip;
use std::alloc::Global;

// Returns which combinations are left out. `-n` leaves out everything that `-N` leaves out, so it overrides `-N`.
fn skip_of_null_flags(no_null: bool, no_all_null: bool) -> Skip
    ensures { result ≡ skip_of_null_flags no_null no_all_null }
{
    if no_null {
        Skip::AnyNull
    } else if no_all_null {
        Skip::AllNull
    } else {
        Skip::Nothing
    }
}

// Returns the combination after which a table continues, if one is given.
fn combination_to_resume_after(
    alloc: Global,
    width: usize,
    given: Option<&[u8]>,
) -> Result<Option<Combo>, ScriptKind>
    requires { (1 ≤ width) × (width ≤ 16) }
    ensures after { IsScriptReadingUnlessMemory result
        (combination_in_after_option width (option_map (λ text. text.now) given.entry)) }
    ensures width { IfOk result (λ after. IfSome after (λ combo. length combo ≡ width)) }
{
    match given {
        None => Ok(None),
        Some(text) => Ok(Some(Combo::read(alloc, text, width)?)),
    }
}

// Returns the options that determine the printed table.
fn stats_options_of_given_options(
    alloc: Global,
    options: Options,
    after: Option<Combo>,
) -> Result<StatsOptions, Memory>
    ensures { IfOk result (λ printed. printed ≡ stats_options_of_given_options options after) }
{
    let flags = options.flags();
    let separator = options.separator().unwrap_or(b' ');
    let null_text = options.into_table_null_text(alloc)?;
    Ok(StatsOptions {
        skip: skip_of_null_flags(flags.no_null, flags.no_all_null),
        labels: flags.labels,
        counts: flags.counts,
        cells: flags.cells,
        separator,
        null_text,
        after,
    })
}

/// Reads the words after r.stats. `known` contains the known maps.
///
/// # Errors
///
/// Returns the first error that applies: the error in the first word that has one, [`ScriptKind::MissingOption`],
/// [`ScriptKind::BadOption`] if flags exclude each other, [`ScriptKind::UnknownMap`], or [`ScriptKind::Combo`]. Returns
/// [`ScriptKind::Memory`] if memory runs out.
#[tactic(auto, using(crate::proofs::FaultLemmas::reported))]
pub(crate) fn stats_command_of_words(
    alloc: Global,
    known: &Names,
    words: &[&[u8]],
) -> Result<Command, ScriptKind>
    ensures command { IsScriptReadingUnlessMemory result (stats_command_of_words known.now
        (values_of_borrowed_texts words.now)) }
    ensures fits { IfOk result (CommandFitsKnownMaps known.now) }
{
    let options = options_in_words(alloc, CommandWithOptions::Stats, words)?;
    let places = input_map_places(alloc, known, &options)?;
    let after = combination_to_resume_after(alloc, places.as_slice().len(), options.after_text())?;
    let options = stats_options_of_given_options(alloc, options, after)?;
    Ok(Command::Stats { places, options })
}
