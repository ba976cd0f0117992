//! Remembers the new categories of cells. Runs of a map often repeat a few categories, so the rules are rarely
//! consulted.

ghost use Rattle.std.specs.Prelude.{◌≡◌, ◌<◌, List, IfOk, length};
ghost use Rattle.cell_cats.specs.Rule.{RuleValue, new_category};
ghost use Rattle.cell_cats.specs.parts.KnownCategories.{AreCachedCategoriesRight, HoldsForRulesOfIntervalsAndCache};

use crate::pieces::RuleOutputIntervals;
use cell_core::cell::Cell;
use cell_core::memory::Memory;
use std::alloc::Global;

// The cache has one slot per CELLS_A_PLACE cells of the map, but at least FEWEST and at most MOST slots: a large map
// may have many categories, and slots take time to initialize. The contracts only state that each slot is correct, so
// these numbers can be tuned.
const MAP_CELLS_PER_CACHE_SLOT: u64 = 8;

const MIN_CACHE_SLOTS: u64 = 64;

const MAX_CACHE_SLOTS: u64 = 32_768;

// A cell and its new category.
#[derive(Clone, Copy)]
pub(crate) struct Known {
    cell: Cell,
    reclassed: Cell,
}

// Returns the number of slots for a map of `cells` cells: a power of two, so that finding a slot needs no division.
fn cache_slot_count_for_cells(cells: u64) -> usize
    ensures { 0 < result }
{
    (cells / MAP_CELLS_PER_CACHE_SLOT)
        .clamp(MIN_CACHE_SLOTS, MAX_CACHE_SLOTS)
        .next_power_of_two() as usize
}

// Returns the slot of a cell among `places` slots.
fn cache_slot_of_cell(cell: Cell, places: usize) -> usize
    requires { 0 < places }
    ensures { result < places }
{
    // The number stored for null, so that null needs no special case.
    let number = cell.get().unwrap_or(i32::MIN);
    let last = places - 1;
    (number.cast_unsigned() as usize & last).min(last)
}

// Returns slots for a map of `cells` cells, all of them for null, which stays null under any rules.
pub(crate) fn new_cache_of_nulls(alloc: Global, cells: u64) -> Result<Vec<Known>, Memory>
    ensures some { IfOk result (λ known. 0 < length known.items) }
    ensures right { IfOk result (λ known. (rules : List RuleValue)
        → AreCachedCategoriesRight rules known.items) }
{
    let cell = Cell::null();
    let null = Known {
        cell,
        reclassed: cell,
    };
    let known = vec![in alloc; null; cache_slot_count_for_cells(cells)]?;
    Ok(known)
}

// Returns the new category of a cell and remembers it.
pub(crate) fn cached_new_category(
    pieces: &RuleOutputIntervals,
    known: &mut [Known],
    cell: Cell,
) -> Cell
    requires some { 0 < length known.old }
    ensures value { HoldsForRulesOfIntervalsAndCache pieces.now known.old (λ rules. result
        ≡ new_category rules cell) }
    ensures right { HoldsForRulesOfIntervalsAndCache pieces.now known.old
        (λ rules. AreCachedCategoriesRight rules known.new) }
{
    let at = cache_slot_of_cell(cell, known.len());
    let found = known[at];
    if found.cell == cell {
        return found.reclassed;
    }
    let reclassed = pieces.apply(cell);
    known[at] = Known { cell, reclassed };
    reclassed
}
