//! Reads the words of r.reclass.

ghost use Rattle.std.specs.Prelude.{◌≡◌, ◌<◌, IfOk, None, length};
ghost use Rattle.cell_core_values.specs.Name.{place_of_name};
ghost use Rattle.rcell_script.specs.Commands.{reclass_input_and_output};
ghost use Rattle.rcell_script.specs.OptionReading.{IsOptionReadingUnlessMemory, values_of_borrowed_texts};

use crate::maps::input_place_and_output_name;
use crate::option_fault::OptionFault;
use crate::options::{CommandWithOptions, options_in_words};
use cell_core::name::{Name, Names};
use std::alloc::Global;

/// Reads the words after r.reclass. Returns the index of the input map, and the name of the output map.
///
/// # Errors
///
/// Returns the first error that applies: the error in the first word that has one, [`OptionFault::MissingOption`],
/// [`OptionFault::UnknownMap`], or [`OptionFault::MapExists`]. Returns [`OptionFault::Memory`] if memory runs out.
pub(crate) fn reclass_input_and_output(
    alloc: Global,
    known: &Names,
    words: &[&[u8]],
) -> Result<(usize, Name), OptionFault>
    ensures maps { IsOptionReadingUnlessMemory result (reclass_input_and_output known.now
        (values_of_borrowed_texts words.now)) }
    ensures within { IfOk result (λ maps. maps.0 < length known.now) }
    ensures new { IfOk result (λ maps. place_of_name maps.1 known.now ≡ None) }
{
    let options = options_in_words(alloc, CommandWithOptions::Reclass, words)?;
    input_place_and_output_name(known, options)
}
