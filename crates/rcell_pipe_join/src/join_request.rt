//! Reads complete join requests.

ghost use Rattle.std.specs.Prelude.{◌≡◌, ◌<◌, ◌^◌, All, IfOk};
ghost use Rattle.rcell_pipe_request.specs.Feeds.{ReadsRequestFieldAndStaysOpen, ReadsToEndWithErrorPosition};
ghost use Rattle.rcell_pipe_join.specs.JoinRequests.{join_request_reading, join_kind_reading, join_kind_of_code, join_request_of_kind_reading, join_request_as_value};
ghost use Rattle.rcell_pipe_join.specs.parts.Heights.{JoinRequestCanBeJoined};

use crate::patch_parts::{PatchesToJoin, read_patches_to_join};
use crate::patch_tables::{PatchTables, read_patch_tables};
use crate::table_reading::{Tables, read_map_count_and_tables};
use cell_clumps::clump::Joining;
use cell_join_tiles::border::TileBorder;
use rcell_pipe_borders::tiles::read_tile_grid;
use rcell_pipe_request::error::{ErrorKind, FieldReadingStop, RequestStop};
use rcell_pipe_request::feed::{Feed, read_u8};
use std::alloc::Global;
use std::io::Read;

/// What a request joins.
#[derive(Clone, Copy, Debug, PartialEq, Eq)]
pub enum JoinKind {
    /// Tables.
    Tables,
    /// Patches of tiles.
    Patches,
    /// Tables whose first column is the number of a patch in its tile.
    PatchTables,
    /// The borders of tiles, whose patches have this connectivity.
    Borders(Joining),
}

/// A join request.
#[derive(Debug, Drop)]
pub enum JoinRequest {
    /// The connectivity of patches, and the borders of a grid of tiles, row by row.
    Borders(Joining, Vec<Vec<TileBorder>>),
    /// Tables over the same number of maps.
    Tables(Tables),
    /// The runs of a numbering, and the joined patches of tiles.
    Patches(PatchesToJoin),
    /// The runs of a numbering, and tables whose first column is the number of a patch in its tile.
    PatchTables(PatchTables),
}

fn join_kind_of_code(code: u8) -> Option<JoinKind>
    ensures { result ≡ join_kind_of_code code }
{
    match code {
        1 => Some(JoinKind::Tables),
        2 => Some(JoinKind::Patches),
        3 => Some(JoinKind::PatchTables),
        4 => Some(JoinKind::Borders(Joining::Edges)),
        8 => Some(JoinKind::Borders(Joining::EdgesAndCorners)),
        _ => None,
    }
}

// Reads the kind of a request.
#[tactic(auto, unfolding(crate::specs::JoinRequests::join_kind_reading))]
fn read_join_kind<R: Read>(feed: &mut Feed<R>) -> Result<JoinKind, FieldReadingStop>
    ensures { ReadsRequestFieldAndStaysOpen (λ kind. kind) feed.old result feed.new
        join_kind_reading }
{
    let code = read_u8(feed)?;
    match join_kind_of_code(code) {
        Some(kind) => Ok(kind),
        None => Err(FieldReadingStop::Error(ErrorKind::BadKind)),
    }
}

// Reads the rest of a request of this kind.
#[tactic(auto, unfolding(crate::specs::JoinRequests::join_request_of_kind_reading))]
fn read_join_request_of_kind<R: Read>(
    alloc: Global,
    feed: &mut Feed<R>,
    kind: JoinKind,
) -> Result<JoinRequest, RequestStop>
    ensures reads { ReadsToEndWithErrorPosition join_request_as_value feed.old result feed.new
        (join_request_of_kind_reading kind) }
    ensures can { IfOk result (λ request. JoinRequestCanBeJoined (join_request_as_value request)) }
{
    match kind {
        JoinKind::Borders(joining) => match read_tile_grid(alloc, feed, joining) {
            Ok(grid) => Ok(JoinRequest::Borders(joining, grid)),
            Err(stop) => Err(stop),
        },
        JoinKind::Tables => match read_map_count_and_tables(alloc, feed) {
            Ok(tables) => Ok(JoinRequest::Tables(tables)),
            Err(stop) => Err(stop),
        },
        JoinKind::Patches => match read_patches_to_join(alloc, feed) {
            Ok(patches) => Ok(JoinRequest::Patches(patches)),
            Err(stop) => Err(stop),
        },
        JoinKind::PatchTables => match read_patch_tables(alloc, feed) {
            Ok(tables) => Ok(JoinRequest::PatchTables(tables)),
            Err(stop) => Err(stop),
        },
    }
}

/// Reads a join request after its first eight bytes, to the end of the source. Memory grows only with the bytes that
/// have arrived.
///
/// # Errors
///
/// Returns the first error in the bytes, or [`RequestStop::Memory`] if memory runs out.
#[tactic(auto, unfolding(crate::specs::JoinRequests::join_request_reading))]
pub fn read_join_request<R: Read>(
    alloc: Global,
    feed: &mut Feed<R>,
) -> Result<JoinRequest, RequestStop>
    ensures reads { ReadsToEndWithErrorPosition join_request_as_value feed.old result feed.new
        join_request_reading }
    ensures can { IfOk result (λ request. JoinRequestCanBeJoined (join_request_as_value request)) }
{
    let kind = match read_join_kind(feed) {
        Ok(kind) => kind,
        Err(stop) => return Err(stop.at(0, 0)),
    };
    read_join_request_of_kind(alloc, feed, kind)
}
