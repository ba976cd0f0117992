//! Reads the region of a request's maps.

ghost use Rattle.std.specs.Prelude.{◌≡◌};
ghost use Rattle.cell_core_values.specs.Region.{region_or_first_fault};
ghost use Rattle.rcell_pipe_request.specs.Feeds.{ReadsRequestFieldAndStaysOpen};
ghost use Rattle.rcell_pipe_request.specs.RequestRegions.{coordinate_reading, edges_reading, region_reading};
ghost use Rattle.rcell_pipe_request.specs.parts.Edges.{edges_as_value, region_of_edge_values};

use crate::error::{ErrorKind, FieldReadingStop};
use crate::feed::{Feed, read_text_with_u8_length, read_u32};
use cell_ascii_reading::number::coordinate_of_text;
use cell_core::region::{Region, RegionFault};
use std::alloc::Global;
use std::io::Read;

// A region's coordinates.
#[derive(Clone, Copy, Debug)]
struct Edges {
    north: i64,
    south: i64,
    east: i64,
    west: i64,
}

// Reads a coordinate, written as in the header of a grid text.
#[tactic(auto, unfolding(crate::specs::RequestRegions::coordinate_reading))]
fn read_coordinate<R: Read>(alloc: Global, feed: &mut Feed<R>) -> Result<i64, FieldReadingStop>
    ensures { ReadsRequestFieldAndStaysOpen (λ n. n) feed.old result feed.new coordinate_reading }
{
    let text = read_text_with_u8_length(alloc, feed)?;
    match coordinate_of_text(&text) {
        Some(units) => Ok(units),
        None => Err(FieldReadingStop::Error(ErrorKind::BadNumber)),
    }
}

// Reads four coordinates.
#[tactic(auto, unfolding(crate::specs::RequestRegions::edges_reading))]
fn read_edge_coordinates<R: Read>(
    alloc: Global,
    feed: &mut Feed<R>,
) -> Result<Edges, FieldReadingStop>
    ensures { ReadsRequestFieldAndStaysOpen edges_as_value feed.old result feed.new edges_reading }
{
    let north = read_coordinate(alloc, feed)?;
    let south = read_coordinate(alloc, feed)?;
    let east = read_coordinate(alloc, feed)?;
    let west = read_coordinate(alloc, feed)?;
    Ok(Edges {
        north,
        south,
        east,
        west,
    })
}

// Builds the region from its coordinates, rows and columns.
fn region_of_edges(edges: Edges, rows: u32, cols: u32) -> Result<Region, RegionFault>
    ensures { result ≡ region_or_first_fault (region_of_edge_values edges rows cols) }
{
    Region::new(edges.north, edges.south, edges.east, edges.west, rows, cols)
}

/// Reads four coordinates and two counts, and checks that they form a region.
#[tactic(auto, unfolding(crate::specs::RequestRegions::region_reading))]
pub(crate) fn read_region<R: Read>(
    alloc: Global,
    feed: &mut Feed<R>,
) -> Result<Region, FieldReadingStop>
    ensures { ReadsRequestFieldAndStaysOpen (λ region. region) feed.old result feed.new
        region_reading }
{
    let edges = read_edge_coordinates(alloc, feed)?;
    let rows = read_u32(feed)?;
    let cols = read_u32(feed)?;
    match region_of_edges(edges, rows, cols) {
        Ok(region) => Ok(region),
        Err(_) => Err(FieldReadingStop::Error(ErrorKind::BadRegion)),
    }
}
