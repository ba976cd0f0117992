//! Looks up the maps that options name.

ghost use Rattle.std.specs.Prelude.{◌≡◌, ◌<◌, ◌≤◌, IfOk, None, All, length};
ghost use Rattle.std.specs.Option.{ok_or};
ghost use Rattle.cell_core_values.specs.Name.{place_of_name};
ghost use Rattle.rcell_script.specs.OptionReading.{IsOptionReadingUnlessMemory, has_conflicting_options};
ghost use Rattle.rcell_script.specs.Maps.{input_place_and_output_name, input_map_place, input_map_places};
ghost use Rattle.rcell_script.specs.InputPlaces.{places_of_map_names};

use crate::option_fault::OptionFault;
use crate::options::Options;
use cell_core::name::{Name, Names};
use std::alloc::Global;
use std::marker::Model;

/// Indexes of maps on a shelf, in order. An index may occur twice.
#[derive(Drop)]
pub struct MapPlaces {
    places: Vec<usize>,
}

impl Model for MapPlaces {
    ghost use Rattle.std.specs.Prelude.{List, ℕ};

    ghost Value = { List ℕ };

    ghost view = { λ p. p.places.items };
}

impl MapPlaces {
    /// Returns the indices as a slice.
    pub fn as_slice(&self) -> &[usize]
        ensures { result.now ≡ self.now }
    {
        &self.places
    }
}

/// Returns the index of the input map, and the name of the output map.
///
/// # Errors
///
/// Returns the first error that applies: [`OptionFault::MissingOption`], [`OptionFault::UnknownMap`], or
/// [`OptionFault::MapExists`].
pub fn input_place_and_output_name(
    known: &Names,
    options: Options,
) -> Result<(usize, Name), OptionFault>
    ensures value { result ≡ input_place_and_output_name known.now options }
    ensures within { IfOk result (λ maps. maps.0 < length known.now) }
    ensures new { IfOk result (λ maps. place_of_name maps.1 known.now ≡ None) }
{
    let (input, output) = options.into_input_and_output_names();
    let (Some(input), Some(output)) = (input, output) else {
        return Err(OptionFault::MissingOption);
    };
    let Some(place) = known.find(input.bytes()) else {
        return Err(OptionFault::UnknownMap);
    };
    match known.find(output.bytes()) {
        Some(_) => Err(OptionFault::MapExists),
        None => Ok((place, output)),
    }
}

/// Returns the index of the input map.
///
/// # Errors
///
/// Returns the first error that applies: [`OptionFault::MissingOption`] or [`OptionFault::UnknownMap`].
pub fn input_map_place(known: &Names, options: &Options) -> Result<usize, OptionFault>
    ensures value { result ≡ input_map_place known.now options.now }
    ensures within { IfOk result (λ place. place < length known.now) }
{
    let Some(input) = &options.input else {
        return Err(OptionFault::MissingOption);
    };
    match known.find(input.bytes()) {
        Some(place) => Ok(place),
        None => Err(OptionFault::UnknownMap),
    }
}

// Returns the indices of names among the known names.
fn known_places_of_map_names(
    alloc: Global,
    known: &Names,
    names: &[Name],
) -> Result<MapPlaces, OptionFault>
    ensures places { IsOptionReadingUnlessMemory result
        (ok_or (places_of_map_names known.now names.now) OptionFault.UnknownMap) }
    ensures within { IfOk result (λ places. All (λ place. place < length known.now) places) }
    ensures count { IfOk result (λ places. length places ≡ length names.now) }
{
    let mut places = Vec::new(alloc);
    for name in names {
        match known.find(name.bytes()) {
            Some(place) => places.push(place)?,
            None => return Err(OptionFault::UnknownMap),
        }
    }
    Ok(MapPlaces { places })
}

// Returns whether the options ask for a line per cell, together with options that exclude this.
fn has_conflicting_options(options: &Options) -> bool
    ensures { result ≡ has_conflicting_options options.now }
{
    options.flags.cells && (options.flags.counts || options.after.is_some())
}

/// Returns the indices of the 1 to 16 input maps.
///
/// # Errors
///
/// Returns the first error that applies: [`OptionFault::MissingOption`], [`OptionFault::BadOption`] if flags exclude
/// each other, or [`OptionFault::UnknownMap`]. Returns [`OptionFault::Memory`] if memory runs out.
pub fn input_map_places(
    alloc: Global,
    known: &Names,
    options: &Options,
) -> Result<MapPlaces, OptionFault>
    ensures places { IsOptionReadingUnlessMemory result (input_map_places known.now options.now) }
    ensures within { IfOk result (λ places. All (λ place. place < length known.now) places) }
    ensures some { IfOk result (λ places. 1 ≤ length places) }
    ensures most { IfOk result (λ places. length places ≤ 16) }
{
    let Some(inputs) = &options.inputs else {
        return Err(OptionFault::MissingOption);
    };
    if has_conflicting_options(options) {
        return Err(OptionFault::BadOption);
    }
    known_places_of_map_names(alloc, known, inputs.names())
}
