//! Reads a map that is sent as the text of a grid.

ghost use Rattle.std.specs.Prelude.{◌≡◌, false};
ghost use Rattle.cell_ascii.specs.GridReaders.{EqualsReadingUnlessOutOfMemory};
ghost use Rattle.cell_ascii_meaning.specs.CellTexts.{map_denoted_by_text};
ghost use Rattle.rcell_pipe_request.specs.Feeds.{ReadsWithErrorPosition};
ghost use Rattle.rcell_pipe_request.specs.TextMaps.{text_map_reading};
ghost use Rattle.rcell_pipe_request.specs.parts.TextStops.{request_stop_of_grid_fault};

use crate::error::{ErrorKind, RequestError, RequestStop};
use crate::feed::{Feed, read_text_with_u64_length};
use cell_ascii::grid_fault::{GridFault, GridKind};
use cell_ascii::grid_reader::read_map;
use cell_ascii::known_sources::results_hold_for_known_bytes;
use cell_core::map::CellMap;
use cell_core::region::Region;
use cell_core::source::MemorySource;
use std::alloc::Global;
use std::io::Read;

// Returns the map that a text denotes, or the first error.
fn map_of_text(alloc: Global, text: Vec<u8>) -> Result<CellMap, GridFault>
    ensures { EqualsReadingUnlessOutOfMemory result
        (map_denoted_by_text (record { bytes = text.items; fails = false })) }
{
    let read = read_map(alloc, MemorySource::new(text, usize::MAX, false));
    results_hold_for_known_bytes::<MemorySource>();
    read.map
}

// Adds the number of maps before a text to its error.
fn stop_of_grid_fault(fault: GridFault, maps: u32) -> RequestStop
    ensures { result ≡ request_stop_of_grid_fault maps fault }
{
    match fault.kind {
        GridKind::Memory => RequestStop::Memory,
        kind => RequestStop::Error(RequestError {
            kind: ErrorKind::Grid(kind),
            maps,
            row: fault.line,
        }),
    }
}

/// Reads a text, and returns its map, which must have this region. The text is in memory only during the call, and
/// memory grows only with the bytes that have arrived.
#[tactic(auto, unfolding(crate::specs::TextMaps::text_map_reading))]
pub(crate) fn read_text_map<R: Read>(
    alloc: Global,
    feed: &mut Feed<R>,
    maps: u32,
    region: Region,
) -> Result<CellMap, RequestStop>
    ensures { ReadsWithErrorPosition (λ map. map) feed.old result feed.new
        (text_map_reading region maps) }
{
    let text = match read_text_with_u64_length(alloc, feed) {
        Ok(text) => text,
        Err(stop) => return Err(stop.at(maps, 0)),
    };
    let map = match map_of_text(alloc, text) {
        Ok(map) => map,
        Err(fault) => return Err(stop_of_grid_fault(fault, maps)),
    };
    if map.region() == region {
        return Ok(map);
    }
    Err(RequestStop::Error(RequestError {
        kind: ErrorKind::OtherRegion,
        maps,
        row: 0,
    }))
}
