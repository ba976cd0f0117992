//! Reads tables.

ghost use Rattle.std.specs.Prelude.{◌≡◌, ◌+◌, ◌<◌, ◌≤◌, ◌^◌, [], All, IfNone, IfOk, IfSome, OnOk, length, sum, sum_by};
ghost use Rattle.cell_stats_combinations.specs.Listed.{NoEntryCountIsZero};
ghost use Rattle.rcell_pipe_request.specs.RequestFields.{reading_repeated_n_times};
ghost use Rattle.rcell_pipe_request.specs.Feeds.{ReadsRequestFieldAndStaysOpen, ReadsWithErrorPosition, ReadsToEndWithErrorPosition};
ghost use Rattle.rcell_pipe_join.specs.TableEntries.{cell_count_of_table, counts_below_cell_limit_reading, counts_with_next_count_reading, entries_with_next_entry_reading, tables_with_next_table_reading, one_table_reading, table_count_reading, tables_as_values, map_count_and_tables_reading, maps_per_table_reading};
ghost use Rattle.rcell_pipe_join.specs.parts.TableCounts.{EntryCountsAreFirstCounts, entry_counts};

use cell_stats_combinations::combination::Combo;
use rcell_pipe_borders::border_fields::read_four_byte_cells;
use rcell_pipe_request::error::{ErrorKind, FieldReadingStop, RequestStop};
use rcell_pipe_request::feed::{Feed, check_request_ends, read_u8, read_u32, read_u64};
use std::alloc::Global;
use std::io::Read;

// The largest number of maps of a table.
const MOST_MAPS_PER_TABLE: u8 = 16;

/// The entries of a table: combinations with their counts.
pub type EntriesOfTable = Vec<(Combo, u64)>;

/// Tables over the same number of maps.
#[derive(Debug, Drop)]
pub struct Tables {
    /// The number of maps.
    pub width: u8,
    /// The entries of each table.
    pub tables: Vec<EntriesOfTable>,
}

// Reads one more count.
#[tactic(auto, unfolding(crate::specs::TableEntries::counts_with_next_count_reading))]
fn read_next_count<R: Read>(
    feed: &mut Feed<R>,
    counts: &mut Vec<u64>,
) -> Result<(), FieldReadingStop>
    ensures reads { ReadsRequestFieldAndStaysOpen (λ _. counts.new.items) feed.old result feed.new
        (counts_with_next_count_reading counts.old.items) }
    ensures count { OnOk result (length counts.new.items ≡ length counts.old.items + 1) }
    ensures some { OnOk result
        (All (λ n. 0 < n) counts.old.items → All (λ n. 0 < n) counts.new.items) }
{
    let count = read_u64(feed)?;
    if 1 <= count {
        counts.push(count)?;
        return Ok(());
    }
    Err(FieldReadingStop::Error(ErrorKind::ZeroCount))
}

// Reads `size` counts.
fn read_counts<R: Read>(
    alloc: Global,
    feed: &mut Feed<R>,
    size: u64,
) -> Result<Vec<u64>, FieldReadingStop>
    ensures reads { ReadsRequestFieldAndStaysOpen (λ counts. counts.items) feed.old result feed.new
        (reading_repeated_n_times counts_with_next_count_reading [] size) }
    ensures count { IfOk result (λ counts. length counts.items ≡ size) }
    ensures some { IfOk result (λ counts. All (λ n. 0 < n) counts.items) }
{
    let mut counts = Vec::new(alloc);
    for i in 0..size {
        match read_next_count(feed, &mut counts) {
            Ok(()) => {}
            Err(stop) => return Err(stop),
        }
    }
    Ok(counts)
}

// Adds counts to a number of cells, unless the sum does not fit in a `u64`.
fn cell_total_with_counts(cells: u64, counts: &[u64]) -> Option<u64>
    ensures some { IfSome result (λ all. all ≡ cells + sum counts.now) }
    ensures none { IfNone result (2 ^ 64 ≤ cells + sum counts.now) }
{
    let mut all = cells;
    for i in 0..counts.len() {
        all = all.checked_add(counts[i])?;
    }
    Some(all)
}

// The counts of a table, and the number of cells of this table and those before it.
#[derive(Drop)]
struct CountsAndCellTotal {
    counts: Vec<u64>,
    cells: u64,
}

// Reads `size` counts. The tables before have `cells` cells.
#[tactic(auto, unfolding(crate::specs::TableEntries::counts_below_cell_limit_reading))]
fn read_counts_and_cell_total<R: Read>(
    alloc: Global,
    feed: &mut Feed<R>,
    cells: u64,
    size: u64,
) -> Result<CountsAndCellTotal, FieldReadingStop>
    ensures reads { ReadsRequestFieldAndStaysOpen (λ few. few.counts.items) feed.old result feed.new
        (counts_below_cell_limit_reading cells size) }
    ensures count { IfOk result (λ few. length few.counts.items ≡ size) }
    ensures some { IfOk result (λ few. All (λ n. 0 < n) few.counts.items) }
    ensures cells { IfOk result (λ few. few.cells ≡ cells + sum few.counts.items) }
{
    let counts = read_counts(alloc, feed, size)?;
    match cell_total_with_counts(cells, counts.as_slice()) {
        Some(cells) => Ok(CountsAndCellTotal { counts, cells }),
        None => Err(FieldReadingStop::Error(ErrorKind::TooManyCells)),
    }
}

// Reads the combination of the next count.
#[tactic(auto, unfolding(crate::specs::TableEntries::entries_with_next_entry_reading))]
fn read_next_entry_combination<R: Read>(
    alloc: Global,
    feed: &mut Feed<R>,
    width: u8,
    counts: &[u64],
    entries: &mut EntriesOfTable,
) -> Result<(), FieldReadingStop>
    requires { length entries.old.items < length counts.now }
    ensures reads { ReadsRequestFieldAndStaysOpen (λ _. entries.new.items) feed.old result feed.new
        (entries_with_next_entry_reading width counts.now entries.old.items) }
    ensures count { OnOk result (length entries.new.items ≡ length entries.old.items + 1) }
    ensures counts { OnOk result
        (EntryCountsAreFirstCounts counts.now entries.old.items
        → EntryCountsAreFirstCounts counts.now entries.new.items) }
{
    let count = counts[entries.len()];
    let cells = read_four_byte_cells(alloc, feed, width as u32)?;
    let Ok(combo) = Combo::from_cells(alloc, cells.as_slice()) else {
        return Err(FieldReadingStop::Memory);
    };
    entries.push((combo, count))?;
    Ok(())
}

// Reads the combination of each count.
fn read_combinations_of_counts<R: Read>(
    alloc: Global,
    feed: &mut Feed<R>,
    width: u8,
    counts: &[u64],
) -> Result<EntriesOfTable, FieldReadingStop>
    ensures reads { ReadsRequestFieldAndStaysOpen
        (λ entries. entries.items) feed.old result feed.new
        (reading_repeated_n_times (entries_with_next_entry_reading width counts.now) []
        (length counts.now)) }
    ensures counts { IfOk result (λ entries. entry_counts entries.items ≡ counts.now) }
{
    let mut entries = Vec::new(alloc);
    for i in 0..counts.len() {
        match read_next_entry_combination(alloc, feed, width, counts, &mut entries) {
            Ok(()) => {}
            Err(stop) => return Err(stop),
        }
    }
    Ok(entries)
}

/// A table, and the number of cells of this table and those before it.
#[derive(Drop)]
pub(crate) struct TableAndCellTotal {
    pub entries: EntriesOfTable,
    pub cells: u64,
}

/// Reads a table. The tables before have `cells` cells.
#[tactic(auto, unfolding(crate::specs::TableEntries::one_table_reading))]
pub(crate) fn read_table<R: Read>(
    alloc: Global,
    feed: &mut Feed<R>,
    width: u8,
    cells: u64,
) -> Result<TableAndCellTotal, FieldReadingStop>
    ensures reads { ReadsRequestFieldAndStaysOpen
        (λ table. table.entries.items) feed.old result feed.new
        (one_table_reading width cells) }
    ensures some { IfOk result (λ table. NoEntryCountIsZero table.entries.items) }
    ensures cells { IfOk result
        (λ table. table.cells ≡ cells + cell_count_of_table table.entries.items) }
{
    let size = read_u64(feed)?;
    let few = read_counts_and_cell_total(alloc, feed, cells, size)?;
    let entries = read_combinations_of_counts(alloc, feed, width, few.counts.as_slice())?;
    Ok(TableAndCellTotal {
        entries,
        cells: few.cells,
    })
}

/// Reads the number of maps.
#[tactic(auto, unfolding(crate::specs::TableEntries::maps_per_table_reading))]
pub(crate) fn read_maps_per_table<R: Read>(feed: &mut Feed<R>) -> Result<u8, FieldReadingStop>
    ensures { ReadsRequestFieldAndStaysOpen (λ width. width) feed.old result feed.new
        maps_per_table_reading }
{
    let width = read_u8(feed)?;
    if 1 <= width && width <= MOST_MAPS_PER_TABLE {
        return Ok(width);
    }
    Err(FieldReadingStop::Error(ErrorKind::BadWidth))
}

// Reads the number of tables.
#[tactic(auto, unfolding(crate::specs::TableEntries::table_count_reading))]
fn read_table_count<R: Read>(feed: &mut Feed<R>) -> Result<u32, FieldReadingStop>
    ensures { ReadsRequestFieldAndStaysOpen (λ count. count) feed.old result feed.new
        table_count_reading }
{
    let count = read_u32(feed)?;
    if 1 <= count {
        return Ok(count);
    }
    Err(FieldReadingStop::Error(ErrorKind::BadTableCount))
}

// Reads one more table. The tables before have `cells` cells. Returns the number of cells with it.
#[tactic(auto, unfolding(crate::specs::TableEntries::tables_with_next_table_reading))]
fn read_next_table<R: Read>(
    alloc: Global,
    feed: &mut Feed<R>,
    width: u8,
    cells: u64,
    tables: &mut Vec<EntriesOfTable>,
) -> Result<u64, RequestStop>
    requires few { length (tables_as_values tables.old.items) < 2 ^ 32 }
    requires cells { cells ≡ sum_by cell_count_of_table (tables_as_values tables.old.items) }
    ensures reads { ReadsWithErrorPosition (λ _. tables_as_values tables.new.items) feed.old result
        feed.new
        (tables_with_next_table_reading width (tables_as_values tables.old.items)) }
    ensures count { IfOk result (λ _. length (tables_as_values tables.new.items)
        ≡ length (tables_as_values tables.old.items) + 1) }
    ensures some { IfOk result (λ _. All NoEntryCountIsZero (tables_as_values tables.old.items)
        → All NoEntryCountIsZero (tables_as_values tables.new.items)) }
    ensures cells { IfOk result
        (λ all. all ≡ sum_by cell_count_of_table (tables_as_values tables.new.items)) }
    ensures few { IfOk result
        (λ _. sum_by cell_count_of_table (tables_as_values tables.new.items) < 2 ^ 64) }
{
    let count = tables.len() as u32;
    let table = match read_table(alloc, feed, width, cells) {
        Ok(table) => table,
        Err(stop) => return Err(stop.at(count, 0)),
    };
    tables.push(table.entries)?;
    Ok(table.cells)
}

// Reads `count` tables.
fn read_given_number_of_tables<R: Read>(
    alloc: Global,
    feed: &mut Feed<R>,
    width: u8,
    count: u32,
) -> Result<Vec<EntriesOfTable>, RequestStop>
    ensures reads { ReadsWithErrorPosition (λ tables. tables_as_values tables.items) feed.old result
        feed.new
        (reading_repeated_n_times (tables_with_next_table_reading width) [] count) }
    ensures some { IfOk result (λ tables. All NoEntryCountIsZero (tables_as_values tables.items)) }
    ensures few { IfOk result
        (λ tables. sum_by cell_count_of_table (tables_as_values tables.items) < 2 ^ 64) }
{
    let mut tables = Vec::new(alloc);
    let mut cells = 0;
    for i in 0..count {
        match read_next_table(alloc, feed, width, cells, &mut tables) {
            Ok(all) => cells = all,
            Err(stop) => return Err(stop),
        }
    }
    Ok(tables)
}

/// Reads the number of maps and the tables, to the end of the source. Memory grows only with the bytes that have
/// arrived.
#[tactic(auto, unfolding(crate::specs::TableEntries::map_count_and_tables_reading))]
pub(crate) fn read_map_count_and_tables<R: Read>(
    alloc: Global,
    feed: &mut Feed<R>,
) -> Result<Tables, RequestStop>
    ensures reads { ReadsToEndWithErrorPosition
        (λ t. (t.width, tables_as_values t.tables.items)) feed.old result
        feed.new map_count_and_tables_reading }
    ensures some { IfOk result (λ t. All NoEntryCountIsZero (tables_as_values t.tables.items)) }
    ensures few { IfOk result
        (λ t. sum_by cell_count_of_table (tables_as_values t.tables.items) < 2 ^ 64) }
{
    let width = match read_maps_per_table(feed) {
        Ok(width) => width,
        Err(stop) => return Err(stop.at(0, 0)),
    };
    let count = match read_table_count(feed) {
        Ok(count) => count,
        Err(stop) => return Err(stop.at(0, 0)),
    };
    let tables = match read_given_number_of_tables(alloc, feed, width, count) {
        Ok(tables) => tables,
        Err(stop) => return Err(stop),
    };
    match check_request_ends(feed) {
        Ok(()) => Ok(Tables { width, tables }),
        Err(stop) => Err(stop.at(count, 0)),
    }
}
