//! Executes the statements that make a map, and adds the map to the shelf.

ghost use Rattle.std.specs.Prelude.{◌≡◌, ◌≤◌, ◌<◌, None, length, OnOk, OnErr};
ghost use Rattle.cell_calc_language.specs.Reach.{map_place_limit_of_formula};
ghost use Rattle.cell_core_values.specs.Name.{place_of_name};
ghost use Rattle.rcell_script.specs.FittingCommands.{CommandFitsKnownMaps};
ghost use Rattle.rcell.specs.After.{IsShelfAfterCommand};
ghost use Rattle.rcell.specs.Making.{IsShelfAfterMapcalc, IsShelfAfterReclass, IsShelfAfterClump, shelf_with_map_at_end};

use crate::map_of_values::evaluate;
use cell_calc_language::bound::Bound;
use cell_cats::reclassing::reclass;
use cell_cats::rules::Rules;
use cell_clumps::clump::{Joining, clump_with};
use cell_core::map::CellMap;
use cell_core::memory::Memory;
use cell_core::name::Name;
use cell_core::shelf::{Shelf, ShelfFault};
use rcell_script::statement::Command;
use std::alloc::Global;

// Adds a map of the shelf's region at the end, with an unused name.
fn append_map_to_shelf(
    alloc: Global,
    shelf: &mut Shelf,
    target: &Name,
    made: CellMap,
) -> Result<(), Memory>
    requires free { place_of_name target.now shelf.old.names ≡ None }
    requires region { made.region ≡ shelf.old.region }
    ensures ok { OnOk result (shelf.new ≡ shelf_with_map_at_end shelf.old target.now made) }
    ensures err { OnErr result (shelf.new ≡ shelf.old) }
{
    let name = target.copy(alloc)?;
    match shelf.add(name, made) {
        Ok(()) => Ok(()),
        Err(refused) => match refused.fault {
            ShelfFault::Exists => unreachable!(),
            ShelfFault::OtherRegion => unreachable!(),
            ShelfFault::Memory => Err(Memory),
        },
    }
}

// r.mapcalc: makes the map of an expression's values.
fn make_map_of_expression_values(
    alloc: Global,
    shelf: &mut Shelf,
    target: &Name,
    bound: &Bound,
) -> Result<(), Memory>
    requires maps { map_place_limit_of_formula bound.now ≤ length shelf.old.maps }
    requires free { place_of_name target.now shelf.old.names ≡ None }
    ensures ok { OnOk result (IsShelfAfterMapcalc shelf.old target.now bound.now shelf.new) }
    ensures err { OnErr result (shelf.new ≡ shelf.old) }
{
    let made = evaluate(alloc, bound, shelf)?;
    append_map_to_shelf(alloc, shelf, target, made)
}

// r.reclass: makes a map by reclassifying another map.
fn make_reclassified_map(
    alloc: Global,
    shelf: &mut Shelf,
    place: usize,
    target: &Name,
    rules: &Rules,
) -> Result<(), Memory>
    requires map { place < length shelf.old.maps }
    requires free { place_of_name target.now shelf.old.names ≡ None }
    ensures ok { OnOk result (IsShelfAfterReclass shelf.old place target.now rules.now shelf.new) }
    ensures err { OnErr result (shelf.new ≡ shelf.old) }
{
    let made = reclass(alloc, shelf.map(place), rules)?;
    append_map_to_shelf(alloc, shelf, target, made)
}

// r.clump: makes the map of another map's clump numbers.
fn make_map_of_clump_numbers(
    alloc: Global,
    shelf: &mut Shelf,
    place: usize,
    target: &Name,
    joining: Joining,
) -> Result<(), Memory>
    requires map { place < length shelf.old.maps }
    requires free { place_of_name target.now shelf.old.names ≡ None }
    ensures ok { OnOk result (IsShelfAfterClump shelf.old place target.now joining shelf.new) }
    ensures err { OnErr result (shelf.new ≡ shelf.old) }
{
    let made = clump_with(alloc, shelf.map(place), joining)?;
    let _region = made.region();
    append_map_to_shelf(alloc, shelf, target, made)
}

/// Adds the map that a command makes to the shelf. A command that writes its result leaves the shelf unchanged.
///
/// # Errors
///
/// Returns [`Memory`] if memory runs out. The shelf is then unchanged.
pub fn add_map_made_by_command(
    alloc: Global,
    shelf: &mut Shelf,
    command: &Command,
) -> Result<(), Memory>
    requires { CommandFitsKnownMaps shelf.old.names command.now }
    ensures ok { OnOk result (IsShelfAfterCommand shelf.old command.now shelf.new) }
    ensures err { OnErr result (shelf.new ≡ shelf.old) }
{
    let _maps = shelf.len();
    match command {
        Command::Mapcalc { target, bound } => make_map_of_expression_values(
            alloc, shelf, target, bound,
        ),
        Command::Reclass {
            place,
            target,
            rules,
        } => make_reclassified_map(alloc, shelf, *place, target, rules),
        Command::Clump {
            place,
            target,
            joining,
        } => make_map_of_clump_numbers(alloc, shelf, *place, target, *joining),
        Command::Stats { .. } => Ok(()),
        Command::OutAscii { .. } => Ok(()),
    }
}
