//! Reads complete requests.

ghost use Rattle.std.specs.Prelude.{◌≡◌, ◌+◌, ◌<◌, ◌≤◌, length, OnOk, IfOk, IfErr};
ghost use Rattle.rcell_pipe_request.specs.RequestFields.{reading_repeated_n_times};
ghost use Rattle.rcell_pipe_request.specs.Feeds.{ReadsRequestFieldAndStaysOpen, ReadsRequestFieldToSourceEnd, ReadsWithErrorPosition, ReadsToEndWithErrorPosition};
ghost use Rattle.rcell_pipe_request.specs.Requests.{shelf_with_named_map, map_count_reading, script_bytes_reading, script_to_request_end_reading, next_map_reading, maps_reading, run_over_shelves_reading, run_request_reading, tile_run_request_reading, named_map_as_value, run_request_as_value};

use crate::error::{ErrorKind, FieldReadingStop, RequestStop};
use crate::feed::{Feed, check_request_ends, read_bytes, read_u32};
use crate::named_map::{NamedMap, read_named_map};
use crate::place::read_place_and_region;
use crate::question::Question;
use crate::questions::read_questions_to_request_end;
use crate::request_region::read_region;
use cell_core::region::Region;
use cell_core::shelf::Shelf;
use rcell_tile::run_shelves::RunShelves;
use std::alloc::Global;
use std::io::Read;

/// Maps, full or of a tile with its halo; a script; and questions about the maps that exist at its end.
#[derive(Debug, Drop)]
pub struct Request {
    pub shelves: RunShelves,
    pub script: Vec<u8>,
    pub questions: Vec<Question>,
}

// Reads the number of maps.
#[tactic(auto, unfolding(crate::specs::Requests::map_count_reading))]
fn read_map_count<R: Read>(feed: &mut Feed<R>) -> Result<u32, FieldReadingStop>
    ensures reads { ReadsRequestFieldAndStaysOpen
        (λ n. n) feed.old result feed.new map_count_reading }
    ensures within { IfOk result (λ n. (1 ≤ n) × (n ≤ 65535)) }
{
    let count = read_u32(feed)?;
    if 1 <= count && count <= 65535 {
        return Ok(count);
    }
    Err(FieldReadingStop::Error(ErrorKind::BadCount))
}

// Reads the script.
#[tactic(auto, unfolding(crate::specs::Requests::script_bytes_reading))]
fn read_script<R: Read>(alloc: Global, feed: &mut Feed<R>) -> Result<Vec<u8>, FieldReadingStop>
    ensures { ReadsRequestFieldAndStaysOpen (λ text. text.items) feed.old result feed.new
        script_bytes_reading }
{
    let size = read_u32(feed)?;
    if size > 1048576 {
        return Err(FieldReadingStop::Error(ErrorKind::ScriptSize));
    }
    read_bytes(alloc, feed, size as usize)
}

/// Reads the script of a request without questions, and checks that the request ends.
#[tactic(auto, unfolding(crate::specs::Requests::script_to_request_end_reading))]
pub fn read_script_to_request_end<R: Read>(
    alloc: Global,
    feed: &mut Feed<R>,
) -> Result<Vec<u8>, FieldReadingStop>
    ensures { ReadsRequestFieldToSourceEnd (λ text. text.items) feed.old result feed.new
        script_to_request_end_reading }
{
    let script = read_script(alloc, feed)?;
    check_request_ends(feed)?;
    Ok(script)
}

// Puts one more map on the shelf.
fn put_map_on_shelf(shelf: &mut Shelf, named: NamedMap) -> Result<(), RequestStop>
    ensures ok { OnOk result (shelf.new ≡ shelf_with_named_map shelf.old
        (named_map_as_value named)) }
    ensures count { OnOk result (length shelf.new.names ≡ length shelf.old.names + 1) }
    ensures error { IfErr result (λ stop. stop ≡ RequestStop.Memory) }
{
    let NamedMap { name, map } = named;
    match shelf.add(name, map) {
        Ok(()) => Ok(()),
        Err(_) => Err(RequestStop::Memory),
    }
}

// Reads one more map.
#[tactic(auto, unfolding(crate::specs::Requests::next_map_reading))]
fn read_next_map_onto_shelf<R: Read>(
    alloc: Global,
    feed: &mut Feed<R>,
    shelf: &mut Shelf,
) -> Result<(), RequestStop>
    requires { length shelf.old.names < 65536 }
    ensures reads { ReadsWithErrorPosition (λ _. shelf.new) feed.old result feed.new
        (next_map_reading shelf.old) }
    ensures region { OnOk result (shelf.new.region ≡ shelf.old.region) }
    ensures count { OnOk result (length shelf.new.names ≡ length shelf.old.names + 1) }
{
    let named = match read_named_map(alloc, feed, &*shelf) {
        Ok(named) => named,
        Err(stop) => return Err(stop),
    };
    put_map_on_shelf(shelf, named)
}

// Reads `count` more maps.
fn read_more_maps_onto_shelf<R: Read>(
    alloc: Global,
    feed: &mut Feed<R>,
    shelf: &mut Shelf,
    count: u32,
) -> Result<(), RequestStop>
    requires { length shelf.old.names + count < 65536 }
    ensures reads { ReadsWithErrorPosition (λ _. shelf.new) feed.old result feed.new
        (reading_repeated_n_times next_map_reading shelf.old count) }
    ensures region { OnOk result (shelf.new.region ≡ shelf.old.region) }
    ensures count { OnOk result (length shelf.new.names ≡ length shelf.old.names + count) }
{
    for i in 0..count {
        match read_next_map_onto_shelf(alloc, feed, shelf) {
            Ok(()) => {}
            Err(stop) => return Err(stop),
        }
    }
    Ok(())
}

// Reads the number of maps, and all maps, which have this region.
#[tactic(auto, unfolding(crate::specs::Requests::maps_reading))]
fn read_maps<R: Read>(
    alloc: Global,
    feed: &mut Feed<R>,
    region: Region,
) -> Result<Shelf, RequestStop>
    ensures reads { ReadsWithErrorPosition (λ shelf. shelf) feed.old result feed.new
        (maps_reading region) }
    ensures region { IfOk result (λ shelf. shelf.region ≡ region) }
    ensures count { IfOk result (λ shelf. length shelf.names < 65536) }
{
    let count = match read_map_count(feed) {
        Ok(count) => count,
        Err(stop) => return Err(stop.at(0, 0)),
    };
    let mut shelf = Shelf::new(alloc, region);
    match read_more_maps_onto_shelf(alloc, feed, &mut shelf, count) {
        Ok(()) => Ok(shelf),
        Err(stop) => Err(stop),
    }
}

// Reads the script and questions of a run over these maps, to the end of the source.
#[tactic(auto, unfolding(crate::specs::Requests::run_over_shelves_reading))]
fn read_run_over_shelves<R: Read>(
    alloc: Global,
    feed: &mut Feed<R>,
    shelves: RunShelves,
) -> Result<Request, RequestStop>
    requires { length shelves.outer.names < 65536 }
    ensures { ReadsToEndWithErrorPosition run_request_as_value feed.old result feed.new
        (run_over_shelves_reading shelves) }
{
    let maps = shelves.outer().len() as u32;
    let script = match read_script(alloc, feed) {
        Ok(script) => script,
        Err(stop) => return Err(stop.at(maps, 0)),
    };
    match read_questions_to_request_end(alloc, feed, maps) {
        Ok(questions) => Ok(Request {
            shelves,
            script,
            questions,
        }),
        Err(stop) => Err(stop),
    }
}

/// Reads the region, maps, script and questions of a run over full maps, to the end of the source. Memory grows only
/// with the bytes that have arrived.
///
/// # Errors
///
/// Returns the first error in the bytes, or [`RequestStop::Memory`] if memory runs out.
#[tactic(auto, unfolding(crate::specs::Requests::run_request_reading))]
pub fn read_run_request<R: Read>(alloc: Global, feed: &mut Feed<R>) -> Result<Request, RequestStop>
    ensures { ReadsToEndWithErrorPosition run_request_as_value feed.old result feed.new
        run_request_reading }
{
    let region = match read_region(alloc, feed) {
        Ok(region) => region,
        Err(stop) => return Err(stop.at(0, 0)),
    };
    match read_maps(alloc, feed, region) {
        Ok(shelf) => read_run_over_shelves(alloc, feed, RunShelves::new(shelf)),
        Err(stop) => Err(stop),
    }
}

/// Reads the place of a tile and the region of its maps, the maps with their halo, and the script and questions of a run
/// over the tile, to the end of the source. Memory grows only with the bytes that have arrived.
///
/// # Errors
///
/// Returns the first error in the bytes, or [`RequestStop::Memory`] if memory runs out.
#[tactic(auto, unfolding(crate::specs::Requests::tile_run_request_reading))]
pub fn read_tile_run_request<R: Read>(
    alloc: Global,
    feed: &mut Feed<R>,
) -> Result<Request, RequestStop>
    ensures { ReadsToEndWithErrorPosition run_request_as_value feed.old result feed.new
        tile_run_request_reading }
{
    let placed = match read_place_and_region(alloc, feed) {
        Ok(placed) => placed,
        Err(stop) => return Err(stop.at(0, 0)),
    };
    let shelf = match read_maps(alloc, feed, placed.region) {
        Ok(shelf) => shelf,
        Err(stop) => return Err(stop),
    };
    match RunShelves::of_tile(alloc, shelf, placed.place) {
        Ok(shelves) => read_run_over_shelves(alloc, feed, shelves),
        Err(_) => Err(RequestStop::Memory),
    }
}
