//! Writes the response to a join request.

ghost use Rattle.std.specs.Prelude.{◌≡◌, None, Ok};
ghost use Rattle.cell_join_tiles.specs.JoinedTiles.{AreConsecutiveClumpsOfTiles, IsClumpCountOfTileGrid};
ghost use Rattle.rcell_pipe_response.specs.RunEnds.{end_frame_of_successful_run};
ghost use Rattle.rcell_pipe_response.specs.FrameEndings.{IsTextSentWithOutcome, IsEndOfResponseSent};
ghost use Rattle.rcell_pipe_borders.specs.BorderGrids.{borders_as_values};
ghost use Rattle.rcell_pipe_join.specs.JoinEnds.{IsJoinResponse};
ghost use Rattle.rcell_pipe_join.specs.JoinFrames.{joined_patches_bytes, one_frame_response, numbering_bytes, patch_sums_bytes, table_sums_bytes};
ghost use Rattle.rcell_pipe_join.specs.JoinRequests.{BorderGrid, PatchList, PatchTableList, TableList, join_request_as_value};
ghost use Rattle.rcell_pipe_join.specs.PatchTables.{patch_tables_as_values};
ghost use Rattle.rcell_pipe_join.specs.TableEntries.{tables_as_values};
ghost use Rattle.rcell_pipe_join.specs.parts.Heights.{JoinRequestCanBeJoined};

use crate::join_frame::{push_joined_patches, push_numbering, push_patch_sums, push_table_sums};
use crate::join_request::JoinRequest;
use crate::patch_parts::PatchesToJoin;
use crate::patch_sums::{PatchSums, sum_patch_tables};
use crate::patch_tables::PatchTables;
use crate::sums::sum_tables;
use crate::table_reading::{EntriesOfTable, Tables};
use cell_clumps::clump::Joining;
use cell_core::sink::Sink;
use cell_join_tiles::border::TileBorder;
use cell_join_tiles::joiner::FullMapNumbering;
use cell_patches::patch::Patch;
use rcell_pipe_borders::numbering::number_patches_of_tiles;
use rcell_pipe_response::end::{PipeError, end_frame_of_successful_run, memory_end};
use rcell_pipe_response::frame_run::{PipeOutcome, begin_response, end_response_and_flush, reject};
use std::alloc::Global;
use std::collections::BTreeMap;

// Writes the numbering of joined tiles.
fn write_numbering_response<W: Sink>(out: &mut W, joined: &FullMapNumbering) -> PipeOutcome
    ensures { IsTextSentWithOutcome (W.taken out.old) (W.faults out.old) (W.taken out.new)
        (W.faults out.new)
        None (one_frame_response (numbering_bytes joined.now.clumps joined.now.runs.items)
        end_frame_of_successful_run)
        result }
{
    let mut block = begin_response(out);
    push_numbering(out, &mut block, joined.clumps, joined.runs.as_slice());
    end_response_and_flush(out, block, None, &end_frame_of_successful_run())
}

// Numbers the patches of a grid of tiles. Allocates all memory before it writes the first byte.
fn respond_with_numbers<W: Sink>(
    alloc: Global,
    joining: Joining,
    grid: Vec<Vec<TileBorder>>,
    out: &mut W,
) -> PipeOutcome
    requires { JoinRequestCanBeJoined (BorderGrid joining (borders_as_values grid.items)) }
    ensures { IsEndOfResponseSent (IsJoinResponse (Ok
        (BorderGrid joining (borders_as_values grid.items))))
        (W.taken out.old) (W.faults out.old) (W.taken out.new) (W.faults out.new) result }
{
    match number_patches_of_tiles(alloc, joining, grid) {
        Ok(joined) => write_numbering_response(out, &joined),
        Err(_) => reject(out, PipeError::Memory, &memory_end(0)),
    }
}

// Writes the sums of tables.
fn write_table_sums_response<W: Sink>(
    out: &mut W,
    width: u8,
    entries: &EntriesOfTable,
) -> PipeOutcome
    ensures { IsTextSentWithOutcome (W.taken out.old) (W.faults out.old) (W.taken out.new)
        (W.faults out.new)
        None (one_frame_response (table_sums_bytes width entries.now.items)
        end_frame_of_successful_run) result }
{
    let mut block = begin_response(out);
    push_table_sums(out, &mut block, width, entries.as_slice());
    end_response_and_flush(out, block, None, &end_frame_of_successful_run())
}

// Adds up tables. Allocates all memory before it writes the first byte.
fn sum_tables_and_respond<W: Sink>(alloc: Global, tables: Tables, out: &mut W) -> PipeOutcome
    requires { JoinRequestCanBeJoined (TableList tables.width
        (tables_as_values tables.tables.items)) }
    ensures { IsEndOfResponseSent
        (IsJoinResponse (Ok (TableList tables.width (tables_as_values tables.tables.items))))
        (W.taken out.old) (W.faults out.old) (W.taken out.new) (W.faults out.new) result }
{
    let Tables { width, tables } = tables;
    match sum_tables(alloc, tables) {
        Ok(entries) => write_table_sums_response(out, width, &entries),
        Err(_) => reject(out, PipeError::Memory, &memory_end(0)),
    }
}

// Writes the patches of the full map.
fn write_joined_patches_response<W: Sink>(
    out: &mut W,
    patches: &BTreeMap<u64, Patch>,
) -> PipeOutcome
    ensures { IsTextSentWithOutcome (W.taken out.old) (W.faults out.old) (W.taken out.new)
        (W.faults out.new)
        None (one_frame_response (joined_patches_bytes patches.now.entries)
        end_frame_of_successful_run) result }
{
    let mut block = begin_response(out);
    push_joined_patches(out, &mut block, patches);
    end_response_and_flush(out, block, None, &end_frame_of_successful_run())
}

// Responds with the patches of the full map, which were joined while the request was read.
fn respond_with_joined_patches<W: Sink>(patches: &PatchesToJoin, out: &mut W) -> PipeOutcome
    ensures { IsEndOfResponseSent
        (IsJoinResponse (Ok (PatchList patches.now.numbering patches.now.joiner)))
        (W.taken out.old) (W.faults out.old) (W.taken out.new) (W.faults out.new) result }
{
    write_joined_patches_response(out, patches.joiner.patches())
}

// Writes the sums of patch tables.
fn write_patch_sums_response<W: Sink>(out: &mut W, width: u8, sums: &PatchSums) -> PipeOutcome
    ensures { IsTextSentWithOutcome (W.taken out.old) (W.faults out.old) (W.taken out.new)
        (W.faults out.new)
        None (one_frame_response (patch_sums_bytes width sums.now.numbers.items
        sums.now.entries.items)
        end_frame_of_successful_run) result }
{
    let mut block = begin_response(out);
    push_patch_sums(
        out,
        &mut block,
        width,
        sums.numbers.as_slice(),
        sums.entries.as_slice(),
    );
    end_response_and_flush(out, block, None, &end_frame_of_successful_run())
}

// Adds up patch tables. Allocates all memory before it writes the first byte.
fn sum_patch_tables_and_respond<W: Sink>(
    alloc: Global,
    tables: PatchTables,
    out: &mut W,
) -> PipeOutcome
    requires { JoinRequestCanBeJoined (PatchTableList tables.numbering tables.width
        (patch_tables_as_values tables.tables.items)) }
    ensures { IsEndOfResponseSent
        (IsJoinResponse (Ok (PatchTableList tables.numbering tables.width
        (patch_tables_as_values tables.tables.items))))
        (W.taken out.old) (W.faults out.old) (W.taken out.new) (W.faults out.new) result }
{
    let PatchTables {
        numbering,
        width,
        tables,
    } = tables;
    match sum_patch_tables(alloc, &numbering, tables) {
        Ok(sums) => write_patch_sums_response(out, width, &sums),
        Err(_) => reject(out, PipeError::Memory, &memory_end(0)),
    }
}

/// Responds to a join request with what it asks for, or reports that memory ran out.
pub fn respond_to_join_request<W: Sink>(
    alloc: Global,
    request: JoinRequest,
    out: &mut W,
) -> PipeOutcome
    requires { JoinRequestCanBeJoined (join_request_as_value request) }
    ensures { IsEndOfResponseSent (IsJoinResponse (Ok (join_request_as_value request)))
        (W.taken out.old)
        (W.faults out.old) (W.taken out.new) (W.faults out.new) result }
{
    match request {
        JoinRequest::Borders(joining, grid) => respond_with_numbers(alloc, joining, grid, out),
        JoinRequest::Tables(tables) => sum_tables_and_respond(alloc, tables, out),
        JoinRequest::Patches(patches) => respond_with_joined_patches(&patches, out),
        JoinRequest::PatchTables(tables) => sum_patch_tables_and_respond(alloc, tables, out),
    }
}
