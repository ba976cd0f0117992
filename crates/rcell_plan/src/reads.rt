//! The maps that a statement reads.

ghost use Rattle.std.specs.Prelude.{◌≡◌, [], ◌∷◌, map, flat_map, IfOk, OnOk};
ghost use Rattle.cell_calc_language.specs.Grammatical.{cell_count_up_or_left, cell_count_down_or_right};
ghost use Rattle.rcell_plan.specs.Needs.{margin_containing_offset, no_margin, need_of_own_cell, needs_with_added_needs};
ghost use Rattle.rcell_plan.specs.Plans.{map_read_by_step, maps_read_by_command};

use crate::needs::{MapNeed, MapNeeds, Margin};
use cell_calc_grammar::step::Step;
use cell_core::memory::Memory;
use rcell_script::statement::Command;
use std::alloc::Global;

fn cell_count_up_or_left(offset: i32) -> u64
    ensures { result ≡ cell_count_up_or_left offset }
{
    if offset < 0 {
        -(offset as i64) as u64
    } else {
        0
    }
}

fn cell_count_down_or_right(offset: i32) -> u64
    ensures { result ≡ cell_count_down_or_right offset }
{
    if offset < 0 { 0 } else { offset as u64 }
}

// Returns the margin that contains an offset.
fn margin_containing_offset(down: i32, right: i32) -> Margin
    ensures { result ≡ margin_containing_offset down right }
{
    Margin {
        up: cell_count_up_or_left(down),
        down: cell_count_down_or_right(down),
        left: cell_count_up_or_left(right),
        right: cell_count_down_or_right(right),
    }
}

/// Returns the need of a map that is read only at the cell itself.
pub(crate) fn need_of_own_cell(place: usize) -> MapNeed
    ensures { result ≡ need_of_own_cell place }
{
    let margin = Margin {
        up: 0,
        down: 0,
        left: 0,
        right: 0,
    };
    MapNeed {
        place,
        margin,
        whole: false,
    }
}

/// Returns the needs of a command that reads only this map, at the cell itself.
pub(crate) fn needs_of_own_cell_only(alloc: Global, place: usize) -> Result<MapNeeds, Memory>
    ensures { IfOk result (λ needs. needs ≡ need_of_own_cell place ∷ []) }
{
    let mut reads = MapNeeds::new(alloc);
    reads.add(need_of_own_cell(place))?;
    Ok(reads)
}

fn add_read_of_step(reads: &mut MapNeeds, step: Step<usize>) -> Result<(), Memory>
    ensures { OnOk result (reads.new ≡ needs_with_added_needs reads.old (map_read_by_step step)) }
{
    match step {
        Step::Map { leaf, down, right } => reads.add(MapNeed {
            place: leaf,
            margin: margin_containing_offset(down, right),
            whole: false,
        }),
        _ => Ok(()),
    }
}

fn maps_read_by_steps(alloc: Global, steps: &[Step<usize>]) -> Result<MapNeeds, Memory>
    ensures { IfOk result (λ reads. reads ≡ needs_with_added_needs []
        (flat_map map_read_by_step steps.now)) }
{
    let mut reads = MapNeeds::new(alloc);
    for step in steps {
        add_read_of_step(&mut reads, *step)?;
    }
    Ok(reads)
}

fn needs_of_places_at_own_cell(alloc: Global, places: &[usize]) -> Result<MapNeeds, Memory>
    ensures { IfOk result (λ reads. reads ≡ needs_with_added_needs []
        (map need_of_own_cell places.now)) }
{
    let mut reads = MapNeeds::new(alloc);
    for place in places {
        reads.add(need_of_own_cell(*place))?;
    }
    Ok(reads)
}

/// Returns the maps that a command reads, each once.
///
/// # Errors
///
/// Returns [`Memory`] if memory runs out.
pub fn maps_read_by_command(alloc: Global, command: &Command) -> Result<MapNeeds, Memory>
    ensures { IfOk result (λ reads. reads ≡ maps_read_by_command command.now) }
{
    match command {
        Command::Mapcalc { bound, .. } => maps_read_by_steps(alloc, bound.steps()),
        Command::Reclass { place, .. } => needs_of_own_cell_only(alloc, *place),
        Command::Clump { place, .. } => needs_of_own_cell_only(alloc, *place),
        Command::Stats { places, .. } => needs_of_places_at_own_cell(alloc, places.as_slice()),
        Command::OutAscii { place, .. } => needs_of_own_cell_only(alloc, *place),
    }
}
