//! Counts of combinations: in a table for one or two maps, side by side for more.

ghost use Rattle.std.specs.Prelude.{◌≡◌, ◌+◌, ◌<◌, ◌≤◌, OnOk, IfOk, length};
ghost use Rattle.cell_stats_combinations.specs.Combinations.{ArePicksOnShelf};
ghost use Rattle.cell_stats_counts.specs.parts.CountsUnderWay.{AreNoCellsCounted, CanContinueCountingCombinations, CountsHaveRoomForMoreCells, AreCombinationCellsCounted};

use crate::paired::{PairCountTable, add_pair_count};
use crate::ranges::slot_layout_for_maps;
use cell_core::cell::Cell;
use cell_core::memory::Memory;
use cell_core::shelf::Shelf;
use cell_stats_combinations::combination::Combo;
use cell_stats_combinations::gathered::{CountedCombinations, add_to_count_of_combination};
use cell_stats_combinations::pair_place::MAX_MAPS_OF_COUNT_SLOT;
use std::alloc::Global;

// The smallest and the largest initial number of places of a table. All numbers of places are powers of two.
const MIN_INITIAL_TABLE_SLOTS: u32 = 64;

const MAX_INITIAL_TABLE_SLOTS: u32 = 4096;

// Combinations of one or two maps are counted in the table, all others side by side.
#[derive(Drop)]
pub(crate) struct CombinationCounter {
    pub(crate) wide: CountedCombinations,
    pub(crate) pairs: PairCountTable,
}

// Counts cells of a combination.
#[inline(always)]
pub(crate) fn add_combination_count(
    alloc: Global,
    cells: &[Cell],
    count: u64,
    places: &mut CombinationCounter,
    entries: &mut Vec<(Combo, u64)>,
) -> Result<(), Memory>
    requires going { CanContinueCountingCombinations
        (length cells.now) places.old entries.old.items }
    requires fits { CountsHaveRoomForMoreCells
        (length cells.now) places.old entries.old.items count }
    ensures { OnOk result (AreCombinationCellsCounted cells.now count places.old entries.old.items
        places.new entries.new.items) }
{
    if cells.len() <= MAX_MAPS_OF_COUNT_SLOT {
        add_pair_count(alloc, cells, count, &mut places.pairs, entries)?;
        return Ok(());
    }
    add_to_count_of_combination(alloc, cells, count, &mut places.wide)?;
    Ok(())
}

// Returns the initial number of places of a table, which is smaller if there are few cells.
fn initial_slot_count(shelf: &Shelf) -> usize
    ensures { 0 < result }
{
    let region = shelf.region();
    let cells = region.rows().saturating_mul(region.cols());
    (cells / 2)
        .clamp(MIN_INITIAL_TABLE_SLOTS, MAX_INITIAL_TABLE_SLOTS)
        .next_power_of_two() as usize
}

// Returns the initial places, which count nothing.
pub(crate) fn empty_combination_counter(
    alloc: Global,
    shelf: &Shelf,
    picks: &[usize],
) -> Result<CombinationCounter, Memory>
    requires { ArePicksOnShelf shelf.now picks.now }
    ensures { IfOk result AreNoCellsCounted }
{
    let many = if picks.len() <= MAX_MAPS_OF_COUNT_SLOT {
        initial_slot_count(shelf)
    } else {
        1
    };
    let wide = CountedCombinations::new(alloc)?;
    let pairs = PairCountTable::new(alloc, slot_layout_for_maps(shelf, picks), many)?;
    Ok(CombinationCounter { wide, pairs })
}
