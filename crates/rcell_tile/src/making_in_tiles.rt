//! Adds the maps that statements make to the maps of a run.

ghost use Rattle.std.specs.Prelude.{◌≡◌, ◌≤◌, ◌<◌, None, length, slice_get, IfOk, OnOk};
ghost use Rattle.cell_core.specs.Grid.{Grid};
ghost use Rattle.cell_calc_language.specs.Reach.{map_place_limit_of_formula};
ghost use Rattle.cell_core_values.specs.Name.{place_of_name};
ghost use Rattle.rcell_script.specs.FittingCommands.{CommandFitsKnownMaps};
ghost use Rattle.rcell.specs.Making.{IsMapOfExpressionValues, IsMapOfClumpNumbers, MapExistsAndSatisfiesRelation, shelf_with_map_at_end};
ghost use Rattle.rcell_tile.specs.TileMaps.{IsTileOfShelf, tile_map, map_with_null_halo};
ghost use Rattle.rcell_tile.specs.TileRuns.{AreShelvesAfterCommand, IsTileShelfAfterCommand, expression_in_tile};

use crate::run_shelves::{RunShelves, TileShelf, add_new_map};
use crate::tile_maps::{map_with_null_halo, tile_map};
use crate::tile_place::TilePlace;
use cell_calc_language::bound::Bound;
use cell_cats::reclassing::reclass;
use cell_clumps::clump::{Joining, clump_with};
use cell_core::map::CellMap;
use cell_core::memory::Memory;
use cell_core::name::Name;
use cell_core::shelf::Shelf;
use rcell::making::add_map_made_by_command;
use rcell::map_of_values::evaluate;
use rcell_plan::rewriting::{PlaceInFullMap, expression_rewritten_for_tile};
use rcell_script::statement::Command;
use std::alloc::Global;

// Returns the map of an expression's values over the maps of a tile.
fn evaluate_in_tile(
    alloc: Global,
    bound: &Bound,
    shelf: &Shelf,
    place: &TilePlace,
) -> Result<CellMap, Memory>
    requires { map_place_limit_of_formula bound.now ≤ length shelf.now.maps }
    ensures { IfOk result
        (IsMapOfExpressionValues (expression_in_tile place.now shelf.now.region bound.now) shelf.now) }
{
    let position = PlaceInFullMap {
        rows: place.full_rows(),
        cols: place.full_cols(),
        top: place.outer_top(),
        left: place.outer_left(),
    };
    let rewritten = expression_rewritten_for_tile(alloc, bound, position)?;
    let made = evaluate(alloc, &rewritten, shelf)?;
    Ok(made)
}

// Adds a map to the maps of a tile, with and without its halo.
fn add_map_with_and_without_halo(
    alloc: Global,
    outer: &mut Shelf,
    tile: TileShelf,
    target: &Name,
    made: CellMap,
) -> Result<TileShelf, Memory>
    requires tile { IsTileOfShelf tile.place outer.old tile.inner }
    requires free { place_of_name target.now outer.old.names ≡ None }
    requires region { made.region ≡ outer.old.region }
    ensures outer { OnOk result (outer.new ≡ shelf_with_map_at_end outer.old target.now made) }
    ensures tile { IfOk result (λ t. (t.place ≡ tile.place)
        × IsTileOfShelf t.place outer.new t.inner) }
{
    let TileShelf { place, mut inner } = tile;
    let cut = tile_map(alloc, &place, &made)?;
    add_new_map(alloc, &mut inner, target, cut)?;
    add_new_map(alloc, outer, target, made)?;
    Ok(TileShelf { place, inner })
}

// Returns the clump numbers of a map in the tile, with null in the halo.
fn clump_numbers_in_tile(
    alloc: Global,
    outer: &Shelf,
    tile: &TileShelf,
    place: usize,
    joining: Joining,
) -> Result<CellMap, Memory>
    requires tile { IsTileOfShelf tile.now.place outer.now tile.now.inner }
    requires map { place < length outer.now.maps }
    ensures { IfOk result (λ made. (numbers : Grid) × (MapExistsAndSatisfiesRelation
        (λ m. IsMapOfClumpNumbers joining (tile_map tile.now.place m) numbers)
        (slice_get outer.now.maps place) × (made
        ≡ map_with_null_halo tile.now.place outer.now.region numbers))) }
{
    let _maps = tile.inner.len();
    let numbers = clump_with(alloc, tile.inner.map(place), joining)?;
    let _region = numbers.region();
    let made = map_with_null_halo(alloc, &tile.place, outer.region(), &numbers)?;
    Ok(made)
}

// Adds the map that a command makes to the maps of a tile.
fn add_map_made_in_tile(
    alloc: Global,
    outer: &mut Shelf,
    tile: TileShelf,
    command: &Command,
) -> Result<TileShelf, Memory>
    requires tile { IsTileOfShelf tile.place outer.old tile.inner }
    requires fits { CommandFitsKnownMaps outer.old.names command.now }
    ensures outer { OnOk result
        (IsTileShelfAfterCommand tile.place outer.old command.now outer.new) }
    ensures tile { IfOk result (λ t. (t.place ≡ tile.place)
        × IsTileOfShelf t.place outer.new t.inner) }
{
    let _maps = outer.len();
    match command {
        Command::Mapcalc { target, bound } => {
            let made = evaluate_in_tile(alloc, bound, outer, &tile.place)?;
            add_map_with_and_without_halo(alloc, outer, tile, target, made)
        }
        Command::Reclass {
            place,
            target,
            rules,
        } => {
            let made = reclass(alloc, outer.map(*place), rules)?;
            add_map_with_and_without_halo(alloc, outer, tile, target, made)
        }
        Command::Clump {
            place,
            target,
            joining,
        } => {
            let made = clump_numbers_in_tile(alloc, outer, &tile, *place, *joining)?;
            add_map_with_and_without_halo(alloc, outer, tile, target, made)
        }
        Command::Stats { .. } => Ok(tile),
        Command::OutAscii { .. } => Ok(tile),
    }
}

/// Adds the map that a command makes to the maps of a run. A command that writes its result leaves them unchanged.
///
/// # Errors
///
/// Returns [`Memory`] if memory runs out. The maps are then of no further use.
pub fn add_map_made_by_command_to_shelves(
    alloc: Global,
    shelves: &mut RunShelves,
    command: &Command,
) -> Result<(), Memory>
    requires { CommandFitsKnownMaps shelves.old.outer.names command.now }
    ensures { OnOk result (AreShelvesAfterCommand shelves.old command.now shelves.new) }
{
    match shelves.tile.take() {
        None => add_map_made_by_command(alloc, &mut shelves.outer, command),
        Some(tile) => {
            let tile = add_map_made_in_tile(alloc, &mut shelves.outer, tile, command)?;
            shelves.tile = Some(tile);
            Ok(())
        }
    }
}
