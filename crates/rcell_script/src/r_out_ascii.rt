//! Reads the words of r.out.ascii.

ghost use Rattle.std.specs.Prelude.{IfOk};
ghost use Rattle.rcell_script.specs.OptionReading.{IsOptionReadingUnlessMemory, values_of_borrowed_texts};
ghost use Rattle.rcell_script.specs.Commands.{out_ascii_command_of_words};
ghost use Rattle.rcell_script.specs.FittingCommands.{CommandFitsKnownMaps};

use crate::command::Command;
use crate::maps::input_map_place;
use crate::option_fault::OptionFault;
use crate::options::{CommandWithOptions, options_in_words};
use cell_core::name::Names;
use std::alloc::Global;

/// Reads the words after r.out.ascii. `known` contains the known maps.
///
/// # Errors
///
/// Returns the first error that applies: the error in the first word that has one, [`OptionFault::MissingOption`], or
/// [`OptionFault::UnknownMap`]. Returns [`OptionFault::Memory`] if memory runs out.
pub(crate) fn out_ascii_command_of_words(
    alloc: Global,
    known: &Names,
    words: &[&[u8]],
) -> Result<Command, OptionFault>
    ensures command { IsOptionReadingUnlessMemory result (out_ascii_command_of_words known.now
        (values_of_borrowed_texts words.now)) }
    ensures fits { IfOk result (CommandFitsKnownMaps known.now) }
{
    let options = options_in_words(alloc, CommandWithOptions::OutAscii, words)?;
    let place = input_map_place(known, &options)?;
    let null_text = options.into_grid_null_text(alloc)?;
    Ok(Command::OutAscii { place, null_text })
}
