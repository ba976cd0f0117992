//! Reads the patches of tiles, and joins them.

ghost use Rattle.std.specs.Prelude.{◌≡◌, ◌≤◌, ◌<◌, [], IfOk};
ghost use Rattle.std.specs.Option.{is_some};
ghost use Rattle.cell_core_values.specs.Cell.{cell_of_stored_number};
ghost use Rattle.rcell_pipe_request.specs.RequestFields.{reading_repeated_n_times};
ghost use Rattle.rcell_pipe_request.specs.Feeds.{ReadsRequestFieldAndStaysOpen, ReadsToEndWithErrorPosition};
ghost use Rattle.rcell_pipe_join.specs.PatchLists.{error_kind_of_part_fault, first_and_last_line_reading, next_tile_patch_reading, parts_with_next_part_reading, patch_counts_reading, patch_measures_reading, patch_numbers_reading, patch_parts_reading, patches_to_join_reading};

use crate::patch_runs::read_patch_numbering;
use cell_join_patches::part::PatchOfTile;
use cell_join_patches::patch_joiner::{PartFault, PartStop, PatchJoiner};
use cell_join_patches::patch_numbering::PatchNumbering;
use cell_patches::patch::Patch;
use rcell_pipe_borders::border_fields::cell_of_four_byte_number;
use rcell_pipe_request::error::{ErrorKind, FieldReadingStop, RequestStop};
use rcell_pipe_request::feed::{Feed, check_request_ends, read_i32, read_u64};
use std::alloc::Global;
use std::io::Read;

// The largest number of rows or columns of a full map.
const MOST_LINES: u64 = 2147483647;

/// The runs of a numbering, and the joined patches of tiles.
#[derive(Debug, Drop)]
pub struct PatchesToJoin {
    /// The numbers in the full map of the tiles' patches.
    pub numbering: PatchNumbering,
    /// The patches of tiles, and the patches of the full map.
    pub joiner: PatchJoiner,
}

// A patch of a tile.
#[derive(Clone, Copy, Debug)]
struct TilePatch {
    tile: u64,
    patch: u64,
}

// Reads the index of a tile and the number of its patch.
#[tactic(auto, unfolding(crate::specs::PatchLists::next_tile_patch_reading))]
fn read_next_tile_patch<R: Read>(
    feed: &mut Feed<R>,
    joiner: &PatchJoiner,
) -> Result<TilePatch, FieldReadingStop>
    ensures { ReadsRequestFieldAndStaysOpen
        (λ place. (place.tile, place.patch)) feed.old result feed.new
        (next_tile_patch_reading joiner.now) }
{
    let tile = read_u64(feed)?;
    let patch = read_u64(feed)?;
    if joiner.patch_can_be_added(tile, patch) {
        return Ok(TilePatch { tile, patch });
    }
    Err(FieldReadingStop::Error(ErrorKind::PatchOrder))
}

// The numbers of a patch in its tile and in the full map.
#[derive(Clone, Copy, Debug)]
struct PatchNumbersInMaps {
    tile: u64,
    patch: u64,
    full_map_number: u64,
}

// Reads the index of a tile and the number of its patch, and looks up its number in the full map.
#[tactic(auto, unfolding(crate::specs::PatchLists::patch_numbers_reading))]
fn read_patch_numbers<R: Read>(
    feed: &mut Feed<R>,
    numbering: &PatchNumbering,
    joiner: &PatchJoiner,
) -> Result<PatchNumbersInMaps, FieldReadingStop>
    ensures { ReadsRequestFieldAndStaysOpen
        (λ n. (n.tile, n.patch, n.full_map_number)) feed.old result feed.new
        (patch_numbers_reading numbering.now joiner.now) }
{
    let place = read_next_tile_patch(feed, joiner)?;
    match numbering.number_in_full_map(place.tile, place.patch) {
        Some(full_map_number) => Ok(PatchNumbersInMaps {
            tile: place.tile,
            patch: place.patch,
            full_map_number,
        }),
        None => Err(FieldReadingStop::Error(ErrorKind::UnknownPatch)),
    }
}

fn is_category(class: i32) -> bool
    ensures { result ≡ is_some (cell_of_stored_number class) }
{
    cell_of_four_byte_number(class).get().is_some()
}

// The class of a patch and its counts of cells and sides.
#[derive(Clone, Copy, Debug)]
struct PatchCounts {
    class: i32,
    cells: u64,
    ends: u64,
    flanks: u64,
    core: u64,
}

// Reads the class of a patch and its counts.
#[tactic(auto, unfolding(crate::specs::PatchLists::patch_counts_reading))]
fn read_patch_counts<R: Read>(feed: &mut Feed<R>) -> Result<PatchCounts, FieldReadingStop>
    ensures { ReadsRequestFieldAndStaysOpen
        (λ n. (n.class, n.cells, n.ends, n.flanks, n.core)) feed.old result feed.new
        patch_counts_reading }
{
    let class = read_i32(feed)?;
    let cells = read_u64(feed)?;
    let ends = read_u64(feed)?;
    let flanks = read_u64(feed)?;
    let core = read_u64(feed)?;
    if is_category(class) && 1 <= cells {
        return Ok(PatchCounts {
            class,
            cells,
            ends,
            flanks,
            core,
        });
    }
    Err(FieldReadingStop::Error(ErrorKind::BadPatch))
}

// The first and the last row, or column, of a patch.
#[derive(Clone, Copy, Debug)]
struct FirstAndLastLine {
    first: u32,
    last: u32,
}

// Reads the first and the last row, or column, of a patch.
#[tactic(auto, unfolding(crate::specs::PatchLists::first_and_last_line_reading))]
fn read_first_and_last_line<R: Read>(
    feed: &mut Feed<R>,
) -> Result<FirstAndLastLine, FieldReadingStop>
    ensures { ReadsRequestFieldAndStaysOpen
        (λ lines. (lines.first, lines.last)) feed.old result feed.new
        first_and_last_line_reading }
{
    let first = read_u64(feed)?;
    let last = read_u64(feed)?;
    if first <= last && last < MOST_LINES {
        return Ok(FirstAndLastLine {
            first: first as u32,
            last: last as u32,
        });
    }
    Err(FieldReadingStop::Error(ErrorKind::BadPatch))
}

// Reads the measures of a patch.
#[tactic(auto, unfolding(crate::specs::PatchLists::patch_measures_reading))]
fn read_patch_measures<R: Read>(feed: &mut Feed<R>) -> Result<Patch, FieldReadingStop>
    ensures { ReadsRequestFieldAndStaysOpen (λ patch. patch) feed.old result feed.new
        patch_measures_reading }
{
    let counts = read_patch_counts(feed)?;
    let rows = read_first_and_last_line(feed)?;
    let cols = read_first_and_last_line(feed)?;
    Ok(Patch {
        class: counts.class,
        cells: counts.cells,
        ends: counts.ends,
        flanks: counts.flanks,
        core: counts.core,
        first_row: rows.first,
        last_row: rows.last,
        first_col: cols.first,
        last_col: cols.last,
    })
}

fn error_kind_of_part_fault(fault: PartFault) -> ErrorKind
    ensures { result ≡ error_kind_of_part_fault fault }
{
    match fault {
        PartFault::OtherClass => ErrorKind::OtherClass,
        PartFault::TooManyCells => ErrorKind::TooManyCells,
    }
}

// Reads one more part.
#[tactic(auto, unfolding(crate::specs::PatchLists::parts_with_next_part_reading))]
fn read_next_part<R: Read>(
    feed: &mut Feed<R>,
    numbering: &PatchNumbering,
    joiner: PatchJoiner,
) -> Result<PatchJoiner, FieldReadingStop>
    ensures { ReadsRequestFieldAndStaysOpen (λ more. more) feed.old result feed.new
        (parts_with_next_part_reading numbering.now joiner) }
{
    let numbers = read_patch_numbers(feed, numbering, &joiner)?;
    let patch = read_patch_measures(feed)?;
    let part = PatchOfTile {
        tile: numbers.tile,
        number: numbers.patch,
        full_map_number: numbers.full_map_number,
        patch,
    };
    match joiner.add(part) {
        Ok(more) => Ok(more),
        Err(stop) => match stop {
            PartStop::Memory => Err(FieldReadingStop::Memory),
            PartStop::Fault(fault) => Err(FieldReadingStop::Error(error_kind_of_part_fault(fault))),
        },
    }
}

// Reads `count` parts.
fn read_given_number_of_parts<R: Read>(
    alloc: Global,
    feed: &mut Feed<R>,
    numbering: &PatchNumbering,
    count: u64,
) -> Result<PatchJoiner, FieldReadingStop>
    ensures { ReadsRequestFieldAndStaysOpen (λ joiner. joiner) feed.old result feed.new
        (reading_repeated_n_times (parts_with_next_part_reading numbering.now) [] count) }
{
    let mut joiner = PatchJoiner::new(alloc);
    for i in 0..count {
        joiner = match read_next_part(feed, numbering, joiner) {
            Ok(more) => more,
            Err(stop) => return Err(stop),
        };
    }
    Ok(joiner)
}

// Reads the patches of tiles, and joins them.
#[tactic(auto, unfolding(crate::specs::PatchLists::patch_parts_reading))]
fn read_patch_parts<R: Read>(
    alloc: Global,
    feed: &mut Feed<R>,
    numbering: &PatchNumbering,
) -> Result<PatchJoiner, FieldReadingStop>
    ensures { ReadsRequestFieldAndStaysOpen (λ joiner. joiner) feed.old result feed.new
        (patch_parts_reading numbering.now) }
{
    let count = read_u64(feed)?;
    read_given_number_of_parts(alloc, feed, numbering, count)
}

/// Reads the runs of a numbering and the patches of tiles, to the end of the source. Memory grows only with the bytes
/// that have arrived.
#[tactic(auto, unfolding(crate::specs::PatchLists::patches_to_join_reading))]
pub(crate) fn read_patches_to_join<R: Read>(
    alloc: Global,
    feed: &mut Feed<R>,
) -> Result<PatchesToJoin, RequestStop>
    ensures { ReadsToEndWithErrorPosition (λ p. (p.numbering, p.joiner)) feed.old result feed.new
        patches_to_join_reading }
{
    let numbering = match read_patch_numbering(alloc, feed) {
        Ok(numbering) => numbering,
        Err(stop) => return Err(stop.at(0, 0)),
    };
    let joiner = match read_patch_parts(alloc, feed, &numbering) {
        Ok(joiner) => joiner,
        Err(stop) => return Err(stop.at(1, 0)),
    };
    match check_request_ends(feed) {
        Ok(()) => Ok(PatchesToJoin { numbering, joiner }),
        Err(stop) => Err(stop.at(2, 0)),
    }
}
