//! Reads the place of a tile in a full map, and the region of its maps.

ghost use Rattle.std.specs.Prelude.{◌≡◌, IfOk};
ghost use Rattle.rcell_pipe_request.specs.Feeds.{ReadsRequestFieldAndStaysOpen};
ghost use Rattle.rcell_pipe_request.specs.RequestPlaces.{full_map_and_corner_reading, tile_rectangle_reading, place_of_maps_of_size, is_possible_place, place_reading, place_and_region_reading};
ghost use Rattle.rcell_tile.specs.TilePlaces.{valid_tile_place};

use crate::error::{ErrorKind, FieldReadingStop};
use crate::feed::{Feed, read_u32};
use crate::request_region::read_region;
use cell_core::region::Region;
use rcell_tile::tile_place::{CellRectangle, TilePlace};
use std::alloc::Global;
use std::io::Read;

/// The size of a full map, and the first row and column of a request's maps in it.
#[derive(Clone, Copy, Debug)]
pub struct FullMapAndCorner {
    pub rows: u32,
    pub cols: u32,
    pub top: u32,
    pub left: u32,
}

/// The place of a request's maps in a full map, and the tile in the full map.
#[derive(Clone, Copy, Debug)]
pub struct StatedPlace {
    pub maps: FullMapAndCorner,
    pub tile: CellRectangle,
}

/// The place of a tile, and the region of its maps.
#[derive(Clone, Copy, Debug)]
pub struct PlaceAndRegion {
    pub place: TilePlace,
    pub region: Region,
}

#[tactic(auto, unfolding(crate::specs::RequestPlaces::full_map_and_corner_reading))]
fn read_full_map_and_corner<R: Read>(
    feed: &mut Feed<R>,
) -> Result<FullMapAndCorner, FieldReadingStop>
    ensures { ReadsRequestFieldAndStaysOpen (λ corner. corner) feed.old result feed.new
        full_map_and_corner_reading }
{
    let rows = read_u32(feed)?;
    let cols = read_u32(feed)?;
    let top = read_u32(feed)?;
    let left = read_u32(feed)?;
    Ok(FullMapAndCorner {
        rows,
        cols,
        top,
        left,
    })
}

#[tactic(auto, unfolding(crate::specs::RequestPlaces::tile_rectangle_reading))]
fn read_tile_rectangle<R: Read>(feed: &mut Feed<R>) -> Result<CellRectangle, FieldReadingStop>
    ensures { ReadsRequestFieldAndStaysOpen (λ tile. tile) feed.old result feed.new
        tile_rectangle_reading }
{
    let top = read_u32(feed)?;
    let left = read_u32(feed)?;
    let rows = read_u32(feed)?;
    let cols = read_u32(feed)?;
    Ok(CellRectangle::new(top, left, rows, cols))
}

// Returns the place, if the maps have these numbers of rows and columns and it is valid.
fn place_of_maps_of_size(place: StatedPlace, rows: u32, cols: u32) -> Option<TilePlace>
    ensures { result ≡ valid_tile_place (place_of_maps_of_size place rows cols) }
{
    let maps = place.maps;
    let outer = CellRectangle::new(maps.top, maps.left, rows, cols);
    TilePlace::new(maps.rows, maps.cols, outer, place.tile)
}

// Returns whether the place is valid for the largest maps.
fn is_possible_place(maps: FullMapAndCorner, tile: CellRectangle) -> bool
    ensures { result ≡ is_possible_place (record { maps = maps; tile = tile }) }
{
    let rows = maps.rows.saturating_sub(maps.top);
    let cols = maps.cols.saturating_sub(maps.left);
    place_of_maps_of_size(StatedPlace { maps, tile }, rows, cols).is_some()
}

// Reads the place of a tile.
#[tactic(auto, unfolding(crate::specs::RequestPlaces::place_reading))]
fn read_place<R: Read>(feed: &mut Feed<R>) -> Result<StatedPlace, FieldReadingStop>
    ensures { ReadsRequestFieldAndStaysOpen (λ place. place) feed.old result feed.new
        place_reading }
{
    let maps = read_full_map_and_corner(feed)?;
    let tile = read_tile_rectangle(feed)?;
    if !is_possible_place(maps, tile) {
        return Err(FieldReadingStop::Error(ErrorKind::BadPlace));
    }
    Ok(StatedPlace { maps, tile })
}

/// Reads the place of a tile and the region of its maps, which must contain the tile and be inside the full map.
#[tactic(auto, unfolding(crate::specs::RequestPlaces::place_and_region_reading))]
pub(crate) fn read_place_and_region<R: Read>(
    alloc: Global,
    feed: &mut Feed<R>,
) -> Result<PlaceAndRegion, FieldReadingStop>
    ensures reads { ReadsRequestFieldAndStaysOpen (λ placed. placed) feed.old result feed.new
        place_and_region_reading }
    ensures rows { IfOk result (λ placed. placed.region.rows ≡ placed.place.outer.rows) }
    ensures cols { IfOk result (λ placed. placed.region.cols ≡ placed.place.outer.cols) }
{
    let stated = read_place(feed)?;
    let region = read_region(alloc, feed)?;
    match place_of_maps_of_size(stated, region.rows(), region.cols()) {
        Some(place) => Ok(PlaceAndRegion { place, region }),
        None => Err(FieldReadingStop::Error(ErrorKind::BadPlace)),
    }
}
