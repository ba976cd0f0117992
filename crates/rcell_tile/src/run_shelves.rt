//! The maps of a run: of a tile with its halo, or full maps.

ghost use Rattle.std.specs.Prelude.{◌≡◌, Some, None, IfOk, IfSome, OnOk};
ghost use Rattle.cell_core_values.specs.Name.{place_of_name};
ghost use Rattle.rcell.specs.Making.{shelf_with_map_at_end};
ghost use Rattle.rcell_tile.specs.TileMaps.{IsPlaceOfMaps, tile_shelf};
ghost use Rattle.rcell_tile.specs.TileRuns.{shelves_of_full_maps, inner_shelf};

use crate::tile_maps::{tile_map, tile_region};
use crate::tile_place::TilePlace;
use cell_core::map::CellMap;
use cell_core::memory::Memory;
use cell_core::name::Name;
use cell_core::shelf::{Shelf, ShelfFault};
use std::alloc::Global;
use std::marker::Model;

// The place of a tile, and its maps without their halo.
#[derive(Debug, Drop)]
pub(crate) struct TileShelf {
    pub(crate) place: TilePlace,
    pub(crate) inner: Shelf,
}

/// The maps of a run. A run over a tile has each map twice: with its halo, from which r.mapcalc and r.reclass make maps,
/// and without, for r.clump, r.stats and r.out.ascii.
#[derive(Debug, Drop)]
pub struct RunShelves {
    pub(crate) outer: Shelf,
    pub(crate) tile: Option<TileShelf>,
}

impl Model for RunShelves {
    ghost use Rattle.std.specs.Prelude.{IfSome};
    ghost use Rattle.std.specs.Option.{option_map};
    ghost use Rattle.rcell_tile.specs.TileMaps.{IsTileOfShelf};
    ghost use Rattle.rcell_tile.specs.TileRuns.{RunShelvesValue};
    ghost use Rattle.rcell_tile.specs.parts.RunCode.{shelves_encoding};

    ghost Value = { RunShelvesValue };

    ghost coded = { shelves_encoding };

    ghost view = { λ s. record { outer = s.outer; place = option_map (λ t. t.place) s.tile } };

    ghost invariant = { λ s. IfSome s.tile (λ t. IsTileOfShelf t.place s.outer t.inner) };
}

/// Adds a map of the shelf's region at the end, with an unused name.
pub(crate) fn add_new_map(
    alloc: Global,
    shelf: &mut Shelf,
    target: &Name,
    made: CellMap,
) -> Result<(), Memory>
    requires free { place_of_name target.now shelf.old.names ≡ None }
    requires region { made.region ≡ shelf.old.region }
    ensures { OnOk result (shelf.new ≡ shelf_with_map_at_end shelf.old target.now made) }
{
    let name = target.copy(alloc)?;
    match shelf.add(name, made) {
        Ok(()) => Ok(()),
        Err(refused) => match refused.fault {
            ShelfFault::Exists => unreachable!(),
            ShelfFault::OtherRegion => unreachable!(),
            ShelfFault::Memory => Err(Memory),
        },
    }
}

// Returns the maps without their halo, under the same names.
fn shelf_of_tile(alloc: Global, outer: &Shelf, place: &TilePlace) -> Result<Shelf, Memory>
    requires { IsPlaceOfMaps place.now outer.now.region }
    ensures { IfOk result (λ inner. inner ≡ tile_shelf place.now outer.now) }
{
    let mut inner = Shelf::new(alloc, tile_region(place, outer.region()));
    for i in 0..outer.len() {
        let map = tile_map(alloc, place, outer.map(i))?;
        add_new_map(alloc, &mut inner, outer.name(i), map)?;
    }
    Ok(inner)
}

impl RunShelves {
    /// Returns the shelves of a run over full maps.
    pub fn new(shelf: Shelf) -> RunShelves
        ensures { result ≡ shelves_of_full_maps shelf }
    {
        RunShelves {
            outer: shelf,
            tile: None,
        }
    }

    /// Returns the shelves of a run over a tile, given its maps with their halo.
    ///
    /// # Errors
    ///
    /// Returns [`Memory`] if memory runs out.
    pub fn of_tile(alloc: Global, outer: Shelf, place: TilePlace) -> Result<RunShelves, Memory>
        requires rows { outer.region.rows ≡ place.outer.rows }
        requires cols { outer.region.cols ≡ place.outer.cols }
        ensures { IfOk result (λ shelves. shelves ≡ record { outer = outer; place = Some place }) }
    {
        let inner = shelf_of_tile(alloc, &outer, &place)?;
        Ok(RunShelves {
            outer,
            tile: Some(TileShelf { place, inner }),
        })
    }

    /// Returns the maps whose cells are counted and written: full maps, or the maps of the tile without its halo.
    pub fn inner(&self) -> &Shelf
        ensures { result.now ≡ inner_shelf self.now }
    {
        match &self.tile {
            None => &self.outer,
            Some(tile) => &tile.inner,
        }
    }

    /// Returns the maps with their halo, if the run is over a tile, otherwise the full maps.
    pub fn outer(&self) -> &Shelf
        ensures { result.now ≡ self.now.outer }
    {
        &self.outer
    }

    /// Returns the maps with their halo, if the run is over a tile, otherwise the full maps.
    pub fn into_outer(self) -> Shelf
        ensures { result ≡ self.outer }
    {
        let RunShelves { outer, tile: _ } = self;
        outer
    }

    /// Returns the place of the tile, if the run is over a tile.
    pub fn place(&self) -> Option<TilePlace>
        ensures value { result ≡ self.now.place }
        ensures covers { IfSome result (λ place. IsPlaceOfMaps place self.now.outer.region) }
    {
        match &self.tile {
            None => None,
            Some(tile) => Some(tile.place),
        }
    }
}
