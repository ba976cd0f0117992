//! Reads patch tables, whose first column is the number of a patch in its tile.

ghost use Rattle.std.specs.Prelude.{◌≡◌, ◌+◌, ◌<◌, ◌^◌, [], All, IfOk, length, sum_by};
ghost use Rattle.rcell_pipe_request.specs.RequestFields.{reading_repeated_n_times};
ghost use Rattle.rcell_pipe_request.specs.Feeds.{ReadsRequestFieldAndStaysOpen, ReadsWithErrorPosition, ReadsToEndWithErrorPosition};
ghost use Rattle.cell_stats_combinations.specs.Listed.{NoEntryCountIsZero};
ghost use Rattle.rcell_pipe_join.specs.TableEntries.{cell_count_of_table};
ghost use Rattle.rcell_pipe_join.specs.PatchTables.{cell_count_of_tile_table, first_patch_is_known, full_map_number_of_cell, number_of_tile_patch, patch_is_known, patch_table_count_reading, patch_table_reading, patch_tables_as_values, patch_tables_reading, patch_tables_with_next_table_reading, patches_are_known};
ghost use Rattle.rcell_pipe_join.specs.parts.TableCounts.{NoCountOfTileTableIsZero};

use crate::patch_runs::read_patch_numbering;
use crate::table_reading::{EntriesOfTable, read_maps_per_table, read_table};
use cell_core::cell::Cell;
use cell_join_patches::patch_numbering::PatchNumbering;
use cell_stats_combinations::combination::Combo;
use rcell_pipe_request::error::{ErrorKind, FieldReadingStop, RequestStop};
use rcell_pipe_request::feed::{Feed, check_request_ends, read_u32, read_u64};
use std::alloc::Global;
use std::io::Read;

/// A table of a tile. The first cell of each combination is the number of a patch in the tile, or null.
#[derive(Debug, Drop)]
pub struct PatchTable {
    /// The index of the tile, counted from 1.
    pub tile: u64,
    /// The entries of the table.
    pub entries: EntriesOfTable,
}

/// The runs of a numbering, and patch tables over the same number of maps.
#[derive(Debug, Drop)]
pub struct PatchTables {
    /// The numbers in the full map of the tiles' patches.
    pub numbering: PatchNumbering,
    /// The number of maps, the first of which is the map of patches.
    pub width: u8,
    /// The tables.
    pub tables: Vec<PatchTable>,
}

// Returns the number in the full map of a patch of a tile, or `None` if no run has the patch.
fn number_of_tile_patch(numbering: &PatchNumbering, tile: u64, patch: i32) -> Option<u64>
    ensures { result ≡ number_of_tile_patch numbering.now tile patch }
{
    if patch < 0 {
        return None;
    }
    numbering.number_in_full_map(tile, patch as u64)
}

/// Returns the number in the full map of a cell's patch, or `None` for null. Returns 0 for a patch that is in no run;
/// reading rejects these patches.
pub(crate) fn full_map_number_of_cell(
    numbering: &PatchNumbering,
    tile: u64,
    cell: Cell,
) -> Option<u64>
    ensures { result ≡ full_map_number_of_cell numbering.now tile cell }
{
    match cell.get() {
        Some(patch) => match number_of_tile_patch(numbering, tile, patch) {
            Some(number) => Some(number),
            None => Some(0),
        },
        None => None,
    }
}

// Returns whether a cell is null or a run has its patch.
fn patch_is_known(numbering: &PatchNumbering, tile: u64, cell: Cell) -> bool
    ensures { result ≡ patch_is_known numbering.now tile cell }
{
    match cell.get() {
        Some(patch) => number_of_tile_patch(numbering, tile, patch).is_some(),
        None => true,
    }
}

// Returns whether the patch of the first cell is known.
fn first_patch_is_known(numbering: &PatchNumbering, tile: u64, cells: &[Cell]) -> bool
    ensures { result ≡ first_patch_is_known numbering.now tile cells.now }
{
    match cells.split_first() {
        Some((cell, _)) => patch_is_known(numbering, tile, *cell),
        None => true,
    }
}

// Returns whether the patches of all entries are known.
fn patches_are_known(numbering: &PatchNumbering, tile: u64, entries: &[(Combo, u64)]) -> bool
    ensures { result ≡ patches_are_known numbering.now tile entries.now }
{
    for entry in entries {
        if !first_patch_is_known(numbering, tile, entry.0.cells()) {
            return false;
        }
    }
    true
}

// A patch table, and the number of cells of this table and those before it.
#[derive(Drop)]
struct PatchTableAndCellTotal {
    table: PatchTable,
    cells: u64,
}

// Reads a patch table. The tables before have `cells` cells.
#[tactic(auto, unfolding(crate::specs::PatchTables::patch_table_reading))]
fn read_patch_table<R: Read>(
    alloc: Global,
    feed: &mut Feed<R>,
    numbering: &PatchNumbering,
    width: u8,
    cells: u64,
) -> Result<PatchTableAndCellTotal, FieldReadingStop>
    ensures reads { ReadsRequestFieldAndStaysOpen
        (λ t. (t.table.tile, t.table.entries.items)) feed.old result feed.new
        (patch_table_reading numbering.now width cells) }
    ensures some { IfOk result (λ t. NoEntryCountIsZero t.table.entries.items) }
    ensures cells { IfOk result
        (λ t. t.cells ≡ cells + cell_count_of_table t.table.entries.items) }
{
    let tile = read_u64(feed)?;
    let read = read_table(alloc, feed, width, cells)?;
    if patches_are_known(numbering, tile, read.entries.as_slice()) {
        return Ok(PatchTableAndCellTotal {
            table: PatchTable {
                tile,
                entries: read.entries,
            },
            cells: read.cells,
        });
    }
    Err(FieldReadingStop::Error(ErrorKind::UnknownPatch))
}

// Reads the number of tables. The runs and the tables are counted together in 32 bits.
#[tactic(auto, unfolding(crate::specs::PatchTables::patch_table_count_reading))]
fn read_patch_table_count<R: Read>(feed: &mut Feed<R>) -> Result<u32, FieldReadingStop>
    ensures reads { ReadsRequestFieldAndStaysOpen (λ count. count) feed.old result feed.new
        patch_table_count_reading }
    ensures few { IfOk result (λ count. count + 1 < 2 ^ 32) }
{
    let count = read_u32(feed)?;
    if 1 <= count && count < u32::MAX {
        return Ok(count);
    }
    Err(FieldReadingStop::Error(ErrorKind::BadTableCount))
}

// Reads one more table. The tables before have `cells` cells. Returns the number of cells with it.
#[tactic(auto, unfolding(crate::specs::PatchTables::patch_tables_with_next_table_reading))]
fn read_next_patch_table<R: Read>(
    alloc: Global,
    feed: &mut Feed<R>,
    numbering: &PatchNumbering,
    width: u8,
    cells: u64,
    tables: &mut Vec<PatchTable>,
) -> Result<u64, RequestStop>
    requires few { length (patch_tables_as_values tables.old.items) + 1 < 2 ^ 32 }
    requires cells { cells
        ≡ sum_by cell_count_of_tile_table (patch_tables_as_values tables.old.items) }
    ensures reads { ReadsWithErrorPosition (λ _. patch_tables_as_values tables.new.items) feed.old
        result feed.new
        (patch_tables_with_next_table_reading numbering.now width
        (patch_tables_as_values tables.old.items)) }
    ensures count { IfOk result (λ _. length (patch_tables_as_values tables.new.items)
        ≡ length (patch_tables_as_values tables.old.items) + 1) }
    ensures some { IfOk result
        (λ _. All NoCountOfTileTableIsZero (patch_tables_as_values tables.old.items)
        → All NoCountOfTileTableIsZero (patch_tables_as_values tables.new.items)) }
    ensures cells { IfOk result
        (λ all. all ≡ sum_by cell_count_of_tile_table (patch_tables_as_values tables.new.items)) }
    ensures few { IfOk result
        (λ _. sum_by cell_count_of_tile_table (patch_tables_as_values tables.new.items) < 2 ^ 64) }
{
    let before = tables.len() as u32 + 1;
    let read = match read_patch_table(alloc, feed, numbering, width, cells) {
        Ok(read) => read,
        Err(stop) => return Err(stop.at(before, 0)),
    };
    tables.push(read.table)?;
    Ok(read.cells)
}

// Reads `count` tables.
fn read_given_number_of_patch_tables<R: Read>(
    alloc: Global,
    feed: &mut Feed<R>,
    numbering: &PatchNumbering,
    width: u8,
    count: u32,
) -> Result<Vec<PatchTable>, RequestStop>
    requires { count + 1 < 2 ^ 32 }
    ensures reads { ReadsWithErrorPosition (λ tables. patch_tables_as_values tables.items) feed.old
        result feed.new
        (reading_repeated_n_times (patch_tables_with_next_table_reading numbering.now width) []
        count) }
    ensures some { IfOk result
        (λ tables. All NoCountOfTileTableIsZero (patch_tables_as_values tables.items)) }
    ensures few { IfOk result
        (λ tables. sum_by cell_count_of_tile_table (patch_tables_as_values tables.items)
        < 2 ^ 64) }
{
    let mut tables = Vec::new(alloc);
    let mut cells = 0;
    for i in 0..count {
        match read_next_patch_table(alloc, feed, numbering, width, cells, &mut tables) {
            Ok(all) => cells = all,
            Err(stop) => return Err(stop),
        }
    }
    Ok(tables)
}

/// Reads the runs of a numbering, the number of maps and the tables, to the end of the source. Memory grows only with
/// the bytes that have arrived.
#[tactic(auto, unfolding(crate::specs::PatchTables::patch_tables_reading))]
pub(crate) fn read_patch_tables<R: Read>(
    alloc: Global,
    feed: &mut Feed<R>,
) -> Result<PatchTables, RequestStop>
    ensures reads { ReadsToEndWithErrorPosition
        (λ t. (t.numbering, t.width, patch_tables_as_values t.tables.items)) feed.old result
        feed.new patch_tables_reading }
    ensures some { IfOk result
        (λ t. All NoCountOfTileTableIsZero (patch_tables_as_values t.tables.items)) }
    ensures few { IfOk result
        (λ t. sum_by cell_count_of_tile_table (patch_tables_as_values t.tables.items) < 2 ^ 64) }
{
    let numbering = match read_patch_numbering(alloc, feed) {
        Ok(numbering) => numbering,
        Err(stop) => return Err(stop.at(0, 0)),
    };
    let width = match read_maps_per_table(feed) {
        Ok(width) => width,
        Err(stop) => return Err(stop.at(1, 0)),
    };
    let count = match read_patch_table_count(feed) {
        Ok(count) => count,
        Err(stop) => return Err(stop.at(1, 0)),
    };
    let tables = match read_given_number_of_patch_tables(alloc, feed, &numbering, width, count) {
        Ok(tables) => tables,
        Err(stop) => return Err(stop),
    };
    match check_request_ends(feed) {
        Ok(()) => Ok(PatchTables {
            numbering,
            width,
            tables,
        }),
        Err(stop) => Err(stop.at(count + 1, 0)),
    }
}
