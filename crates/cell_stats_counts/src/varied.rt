//! Counts rows in which most cells differ from their neighbours, cell by cell.

ghost use Rattle.std.specs.Prelude.{◌≡◌, ◌+◌, ◌<◌, ◌^◌, OnOk, IfOk, length, map};
ghost use Rattle.cell_core.specs.Grid.{row_at};
ghost use Rattle.cell_stats_combinations.specs.Combinations.{Combination};
ghost use Rattle.cell_stats_combinations.specs.Listed.{listed_count_of_combination, NoEntryCountIsZero};
ghost use Rattle.cell_stats_combinations.specs.PairPlaces.{count_of_combination_in_slots};
ghost use Rattle.cell_stats_counts.specs.parts.HeldPlaces.{SlotsHaveRoomForMoreCells};
ghost use Rattle.cell_stats_counts.specs.parts.Alone.{combination_of_one_cell};
ghost use Rattle.cell_stats_counts.specs.parts.RowCells.{combinations_of_two_rows, combination_cell_count_from_column};

use crate::paired::{
    PairCountTable, add_pair_count, count_cells_while_in_first_slot,
    count_pairs_while_in_near_slots,
};
use cell_core::cell::Cell;
use cell_core::map::CellMap;
use cell_core::memory::Memory;
use cell_stats_combinations::combination::Combo;
use cell_stats_combinations::skip::{Skip, combination_is_left_out};
use std::alloc::Global;

// The number of stretches of a row that are examined. The row is varied if they have fewer than ENOUGH cells.
const EXAMINED_STRETCHES_OF_ROW: usize = 8;

const EXAMINED_CELLS_LIMIT_IF_VARIED: u32 = 16;

// In shorter rows, copying takes more time than it saves.
const MIN_ROW_WIDTH_TO_COPY: u32 = 64;

// Returns whether most of the first cells of a row differ from their neighbours.
pub(crate) fn row_changes_often(map: &CellMap, row: u32) -> bool
    requires { row < map.now.region.rows }
    ensures width { length (row_at map.now row) ≡ map.now.region.cols }
{
    let mut cells: u32 = 0;
    for (_, count) in map.stretches(row).take(EXAMINED_STRETCHES_OF_ROW) {
        cells = cells.wrapping_add(count);
        if cells >= EXAMINED_CELLS_LIMIT_IF_VARIED {
            return false;
        }
    }
    map.region().cols() >= MIN_ROW_WIDTH_TO_COPY
}

// Returns a copy of the cells of a row.
fn copied_cells_of_row(alloc: Global, map: &CellMap, row: u32) -> Result<Vec<Cell>, Memory>
    requires { row < map.now.region.rows }
    ensures cells { IfOk result (λ cells. cells.items ≡ row_at map.now row) }
    ensures width { IfOk result (λ cells. length cells.items ≡ map.now.region.cols) }
{
    let mut cells = vec![in alloc; Cell::null(); map.region().cols() as usize]?;
    map.copy_row(row, cells.as_mut_slice());
    Ok(cells)
}

// Counts cells of one map.
fn count_cells_one_by_one(
    alloc: Global,
    cells: &[Cell],
    skip: Skip,
    table: &mut PairCountTable,
    entries: &mut Vec<(Combo, u64)>,
) -> Result<(), Memory>
    requires places { 0 < length table.old.places.items }
    requires fits { SlotsHaveRoomForMoreCells 1 table.old.places.items entries.old.items
        (length cells.now) }
    requires no_zero { NoEntryCountIsZero entries.old.items }
    ensures ok { OnOk result ((k : Combination)
        → count_of_combination_in_slots 1 k table.new.places.items + listed_count_of_combination k
        entries.new.items
        ≡ count_of_combination_in_slots 1 k table.old.places.items + listed_count_of_combination k
        entries.old.items
        + combination_cell_count_from_column skip k (map combination_of_one_cell cells.now) 0) }
    ensures places { OnOk result (0 < length table.new.places.items) }
    ensures no_zero { OnOk result (NoEntryCountIsZero entries.new.items) }
{
    let mut col = 0;
    while col < cells.len() {
        let layout = table.layout;
        let places = table.places.as_mut_slice();
        col = count_cells_while_in_first_slot(places, layout, &mut table.taken, skip, cells, col);
        if col < cells.len() {
            let one = [cells[col]];
            if !combination_is_left_out(skip, &one) {
                add_pair_count(alloc, &one, 1, table, entries)?;
            }
            col += 1;
        }
    }
    Ok(())
}

// Counts the cells of a row of one map.
pub(crate) fn count_varied_row_of_one_map(
    alloc: Global,
    grid: &CellMap,
    row: u32,
    skip: Skip,
    table: &mut PairCountTable,
    entries: &mut Vec<(Combo, u64)>,
) -> Result<(), Memory>
    requires row_in_range { row < grid.now.region.rows }
    requires width { length (row_at grid.now row) ≡ grid.now.region.cols }
    requires places { 0 < length table.old.places.items }
    requires fits { SlotsHaveRoomForMoreCells 1 table.old.places.items entries.old.items
        grid.now.region.cols }
    requires no_zero { NoEntryCountIsZero entries.old.items }
    ensures ok { OnOk result ((k : Combination)
        → count_of_combination_in_slots 1 k table.new.places.items + listed_count_of_combination k
        entries.new.items
        ≡ count_of_combination_in_slots 1 k table.old.places.items + listed_count_of_combination k
        entries.old.items
        + combination_cell_count_from_column skip k
        (map combination_of_one_cell (row_at grid.now row)) 0) }
    ensures places { OnOk result (0 < length table.new.places.items) }
    ensures no_zero { OnOk result (NoEntryCountIsZero entries.new.items) }
{
    if let Some(cells) = grid.cells(row) {
        return count_cells_one_by_one(alloc, cells, skip, table, entries);
    }
    let copied = copied_cells_of_row(alloc, grid, row)?;
    count_cells_one_by_one(alloc, copied.as_slice(), skip, table, entries)
}

// Counts the pairs of the cells of a row of two maps.
pub(crate) fn count_varied_row_of_two_maps(
    alloc: Global,
    one: &CellMap,
    other: &CellMap,
    row: u32,
    skip: Skip,
    table: &mut PairCountTable,
    entries: &mut Vec<(Combo, u64)>,
) -> Result<(), Memory>
    requires row_in_range { row < one.now.region.rows }
    requires region { other.now.region ≡ one.now.region }
    requires places { 0 < length table.old.places.items }
    requires fits { SlotsHaveRoomForMoreCells 2 table.old.places.items entries.old.items
        one.now.region.cols }
    requires no_zero { NoEntryCountIsZero entries.old.items }
    ensures ok { OnOk result ((k : Combination)
        → count_of_combination_in_slots 2 k table.new.places.items + listed_count_of_combination k
        entries.new.items
        ≡ count_of_combination_in_slots 2 k table.old.places.items + listed_count_of_combination k
        entries.old.items
        + combination_cell_count_from_column skip k (combinations_of_two_rows (row_at one.now row)
        (row_at other.now row)) 0) }
    ensures places { OnOk result (0 < length table.new.places.items) }
    ensures no_zero { OnOk result (NoEntryCountIsZero entries.new.items) }
    ensures width { OnOk result (length (row_at one.now row) ≡ one.now.region.cols) }
    ensures width_of_other { OnOk result (length (row_at other.now row) ≡ one.now.region.cols) }
{
    let firsts = copied_cells_of_row(alloc, one, row)?;
    let seconds = copied_cells_of_row(alloc, other, row)?;
    let first = firsts.as_slice();
    let second = seconds.as_slice();
    let mut col = 0;
    while col < first.len() {
        col = count_pairs_while_in_near_slots(
            table.places.as_mut_slice(),
            skip,
            first,
            second,
            col,
        );
        if col < first.len() {
            let cells = [first[col], second[col]];
            if !combination_is_left_out(skip, &cells) {
                add_pair_count(alloc, &cells, 1, table, entries)?;
            }
            col += 1;
        }
    }
    Ok(())
}
