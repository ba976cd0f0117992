//! Counts the cells of one map.

ghost use Rattle.std.specs.Prelude.{◌≡◌, ◌+◌, ◌<◌, ◌^◌, ℕ, [], ◌∷◌, OnOk, length, map, sum_by};
ghost use Rattle.cell_core_values.specs.Region.{IsValidRegion};
ghost use Rattle.cell_core.specs.Grid.{row_at};
ghost use Rattle.cell_core.specs.Runs.{cells_of_runs};
ghost use Rattle.cell_stats_combinations.specs.Combinations.{ArePicksOnShelf, Combination};
ghost use Rattle.cell_stats_combinations.specs.LeftOut.{kept_cells};
ghost use Rattle.cell_stats_counts.specs.Counts.{cell_count_of_combination};
ghost use Rattle.cell_stats_counts.specs.parts.Alone.{combination_of_one_cell};
ghost use Rattle.cell_stats_counts.specs.parts.ByteCounts.{count_added_by_byte_cell, sum_over_counted_bytes};
ghost use Rattle.cell_stats_counts.specs.parts.CountsUnderWay.{counted_cell_count_of_combination, AreCellsAboveRowCounted, CountsHaveRoomForMoreCells, CanContinueCountingCombinations};

use crate::counting::{CombinationCounter, add_combination_count};
use crate::varied::{count_varied_row_of_one_map, row_changes_often};
use cell_core::map::CellMap;
use cell_core::memory::Memory;
use cell_core::shelf::Shelf;
use cell_core::stretches::RunsOrCells;
use cell_core_values::small_cells::cell_of_byte;
use cell_stats_combinations::combination::Combo;
use cell_stats_combinations::skip::{Skip, combination_is_left_out};
use std::alloc::Global;

// The number of different bytes.
const COUNTED_BYTE_VALUES: usize = 256;

// Counts the cells of stretches.
fn count_cells_of_stretches(
    alloc: Global,
    stretches: RunsOrCells<'_>,
    skip: Skip,
    places: &mut CombinationCounter,
    entries: &mut Vec<(Combo, u64)>,
) -> Result<(), Memory>
    requires going { CanContinueCountingCombinations 1 places.old entries.old.items }
    requires fits { CountsHaveRoomForMoreCells 1 places.old entries.old.items
        (length (cells_of_runs stretches)) }
    ensures ok { OnOk result ((k : Combination)
        → counted_cell_count_of_combination 1 k places.new entries.new.items
        ≡ counted_cell_count_of_combination 1 k places.old entries.old.items
        + cell_count_of_combination k (kept_cells skip
        (map combination_of_one_cell (cells_of_runs stretches.entry)))) }
    ensures going { OnOk result (CanContinueCountingCombinations 1 places.new entries.new.items) }
{
    for (cell, count) in stretches {
        let cells = [cell];
        if !combination_is_left_out(skip, &cells) {
            add_combination_count(alloc, &cells, u64::from(count), places, entries)?;
        }
    }
    Ok(())
}

// Counts bytes, each in its own place: a sum over the bytes is a sum over these counts.
#[inline(always)]
fn add_bytes_to_byte_counts(bytes: &[u8], counts: &mut [u64; COUNTED_BYTE_VALUES])
    requires { sum_over_counted_bytes (λ b. 1) 0 counts.old + length bytes.now < 2 ^ 64 }
    ensures { (f : ℕ → ℕ)
        → sum_over_counted_bytes f 0 counts.new
        ≡ sum_over_counted_bytes f 0 counts.old + sum_by f bytes.now }
{
    for byte in bytes {
        counts[*byte as usize] += 1;
    }
}

// Counts cells, given the count of each byte.
fn add_byte_counts_as_cell_counts(
    alloc: Global,
    counts: &[u64; COUNTED_BYTE_VALUES],
    skip: Skip,
    places: &mut CombinationCounter,
    entries: &mut Vec<(Combo, u64)>,
) -> Result<(), Memory>
    requires going { CanContinueCountingCombinations 1 places.old entries.old.items }
    requires fits { CountsHaveRoomForMoreCells 1 places.old entries.old.items
        (sum_over_counted_bytes (λ b. 1) 0 counts.now) }
    ensures ok { OnOk result ((k : Combination)
        → counted_cell_count_of_combination 1 k places.new entries.new.items
        ≡ counted_cell_count_of_combination 1 k places.old entries.old.items
        + sum_over_counted_bytes
        (count_added_by_byte_cell skip k) 0 counts.now) }
    ensures going { OnOk result (CanContinueCountingCombinations 1 places.new entries.new.items) }
{
    for byte in 0..COUNTED_BYTE_VALUES {
        let count = counts[byte];
        let cells = [cell_of_byte(byte as u8)];
        if count > 0 && !combination_is_left_out(skip, &cells) {
            add_combination_count(alloc, &cells, count, places, entries)?;
        }
    }
    Ok(())
}

// Counts the cells of a row of one map.
fn count_row_of_one_map(
    alloc: Global,
    grid: &CellMap,
    row: u32,
    skip: Skip,
    places: &mut CombinationCounter,
    entries: &mut Vec<(Combo, u64)>,
) -> Result<(), Memory>
    requires row_in_range { row < grid.now.region.rows }
    requires going { CanContinueCountingCombinations 1 places.old entries.old.items }
    requires fits { CountsHaveRoomForMoreCells 1 places.old entries.old.items grid.now.region.cols }
    ensures ok { OnOk result ((k : Combination)
        → counted_cell_count_of_combination 1 k places.new entries.new.items
        ≡ counted_cell_count_of_combination 1 k places.old entries.old.items
        + cell_count_of_combination k (kept_cells skip
        (map combination_of_one_cell (row_at grid.now row)))) }
    ensures going { OnOk result (CanContinueCountingCombinations 1 places.new entries.new.items) }
    ensures width { length (row_at grid.now row) ≡ grid.now.region.cols }
{
    if row_changes_often(grid, row) {
        let table = &mut places.pairs;
        return count_varied_row_of_one_map(alloc, grid, row, skip, table, entries);
    }
    count_cells_of_stretches(alloc, grid.stretches(row), skip, places, entries)
}

// Counts the cells of one map. Rows that are kept as bytes are counted by byte first, which needs no search for a
// place.
pub(crate) fn count_cells_of_one_map(
    alloc: Global,
    shelf: &Shelf,
    pick: usize,
    skip: Skip,
    places: &mut CombinationCounter,
    entries: &mut Vec<(Combo, u64)>,
) -> Result<(), Memory>
    requires picked { ArePicksOnShelf shelf.now (pick ∷ []) }
    requires going { CanContinueCountingCombinations 1 places.old entries.old.items }
    requires counted { AreCellsAboveRowCounted shelf.now (pick
        ∷ []) skip 0 places.old entries.old.items }
    ensures ok { OnOk result (AreCellsAboveRowCounted shelf.now (pick
        ∷ []) skip shelf.now.region.rows
        places.new entries.new.items) }
    ensures going { OnOk result (CanContinueCountingCombinations 1 places.new entries.new.items) }
    ensures region { IsValidRegion shelf.now.region }
{
    let grid = shelf.map(pick);
    let mut counts = [0u64; COUNTED_BYTE_VALUES];
    for row in 0..shelf.region().rows() {
        if let Some(bytes) = grid.bytes(row) {
            add_bytes_to_byte_counts(bytes, &mut counts);
        } else {
            count_row_of_one_map(alloc, grid, row, skip, places, entries)?;
        }
    }
    add_byte_counts_as_cell_counts(alloc, &counts, skip, places, entries)
}
