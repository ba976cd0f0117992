//! Reads the words of r.clump.

ghost use Rattle.std.specs.Prelude.{◌≡◌, IfOk};
ghost use Rattle.rcell_script.specs.OptionReading.{IsOptionReadingUnlessMemory, values_of_borrowed_texts};
ghost use Rattle.rcell_script.specs.RClump.{joining_of_corner_flag};
ghost use Rattle.rcell_script.specs.Commands.{clump_command_of_words};
ghost use Rattle.rcell_script.specs.FittingCommands.{CommandFitsKnownMaps};

use crate::command::Command;
use crate::maps::input_place_and_output_name;
use crate::option_fault::OptionFault;
use crate::options::{CommandWithOptions, options_in_words};
use cell_clumps::clump::Joining;
use cell_core::name::Names;
use std::alloc::Global;

fn joining_of_corner_flag(corners: bool) -> Joining
    ensures { result ≡ joining_of_corner_flag corners }
{
    if corners {
        Joining::EdgesAndCorners
    } else {
        Joining::Edges
    }
}

/// Reads the words after r.clump. `known` contains the known maps.
///
/// # Errors
///
/// Returns the first error that applies: the error in the first word that has one, [`OptionFault::MissingOption`],
/// [`OptionFault::UnknownMap`], or [`OptionFault::MapExists`]. Returns [`OptionFault::Memory`] if memory runs out.
pub(crate) fn clump_command_of_words(
    alloc: Global,
    known: &Names,
    words: &[&[u8]],
) -> Result<Command, OptionFault>
    ensures command { IsOptionReadingUnlessMemory result (clump_command_of_words known.now
        (values_of_borrowed_texts words.now)) }
    ensures fits { IfOk result (CommandFitsKnownMaps known.now) }
{
    let options = options_in_words(alloc, CommandWithOptions::Clump, words)?;
    let joining = joining_of_corner_flag(options.flags().corners);
    let (place, target) = input_place_and_output_name(known, options)?;
    Ok(Command::Clump {
        place,
        target,
        joining,
    })
}
