//! The categories of one map, added to the list with a test of whether it ascends.

ghost use Rattle.std.specs.Prelude.{◌≡◌, ◌+◌, ◌<◌, ◌++◌, ◌∷◌, [], All, OnOk, IfOk, IsTrue};
ghost use Rattle.std.specs.declared.cmp.Ordering.TheVariants.{Less};
ghost use Rattle.cell_stats_combinations.specs.Combinations.{Combination, combination_cmp};
ghost use Rattle.cell_stats_combinations.specs.Listed.{listed_count_of_combination, CombinationsAreAscending, NoEntryCountIsZero};
ghost use Rattle.cell_stats_counts.specs.parts.Alone.{combination_of_one_cell};
ghost use Rattle.cell_stats_combinations.specs.PairPlaces.{count_of_combination_in_slot, count_of_combination_in_slots};
ghost use Rattle.cell_stats_counts.specs.parts.RisingEnds.{ListAscendsIfEndStatesSo};

use cell_core::cell::Cell;
use cell_core::memory::Memory;
use cell_stats_combinations::combination::Combo;
use cell_stats_combinations::pair_place::CombinationCountSlot;

// The end of a list of categories: the last one, and whether the list is known to ascend.
#[derive(Clone, Copy)]
pub(crate) struct AscendingListEnd {
    pub(crate) last: Cell,
    pub(crate) ascends: bool,
}

// Returns whether a category is known, from the end of the list, to be above all categories in the list.
#[inline(always)]
fn is_known_above_listed_categories(
    cell: Cell,
    end: AscendingListEnd,
    entries: &Vec<(Combo, u64)>,
) -> bool
    requires { ListAscendsIfEndStatesSo end entries.now.items }
    ensures above { IsTrue result
        → All (λ e. combination_cmp e.0 (combination_of_one_cell cell) ≡ Less) entries.now.items }
    ensures ascending { IsTrue result → CombinationsAreAscending entries.now.items }
{
    end.ascends && (entries.is_empty() || end.last < cell)
}

// Adds a category and its count to the list, which needs no memory if there is room.
#[inline(always)]
fn push_category_with_count(
    cell: Cell,
    count: u64,
    entries: &mut Vec<(Combo, u64)>,
) -> Result<(), Memory>
    ensures { OnOk result (entries.new.items ≡ entries.old.items
        ++ (combination_of_one_cell cell, count) ∷ []) }
{
    let combo = Combo::of_first_cells_of_pair([cell, Cell::null()], 1);
    if entries.len() < entries.capacity() {
        entries.push_reserved((combo, count));
        return Ok(());
    }
    entries.push((combo, count))?;
    Ok(())
}

// Adds the category of a place to the list, unless the place is free. Returns the new end of the list.
#[inline(always)]
fn push_category_entry_of_slot(
    place: &CombinationCountSlot,
    end: AscendingListEnd,
    entries: &mut Vec<(Combo, u64)>,
) -> Result<AscendingListEnd, Memory>
    requires no_zero { NoEntryCountIsZero entries.old.items }
    requires end { ListAscendsIfEndStatesSo end entries.old.items }
    ensures ok { OnOk result ((k : Combination) → listed_count_of_combination k entries.new.items
        ≡ listed_count_of_combination k entries.old.items + count_of_combination_in_slot 1 k
        place.now) }
    ensures no_zero { OnOk result (NoEntryCountIsZero entries.new.items) }
    ensures end { IfOk result (λ next. ListAscendsIfEndStatesSo next entries.new.items) }
{
    if place.count == 0 {
        return Ok(end);
    }
    let last = place.cells[0];
    let ascends = is_known_above_listed_categories(last, end, entries);
    push_category_with_count(last, place.count, entries)?;
    Ok(AscendingListEnd { last, ascends })
}

// Adds the categories of all taken places to the list. Returns whether the list is known to ascend.
pub(crate) fn push_category_entries_of_slots(
    places: &[CombinationCountSlot],
    entries: &mut Vec<(Combo, u64)>,
) -> Result<bool, Memory>
    requires no_zero { NoEntryCountIsZero entries.old.items }
    ensures ok { OnOk result ((k : Combination) → listed_count_of_combination k entries.new.items
        ≡ listed_count_of_combination k entries.old.items + count_of_combination_in_slots 1 k
        places.now) }
    ensures no_zero { OnOk result (NoEntryCountIsZero entries.new.items) }
    ensures ascending { IfOk result (λ known. IsTrue known
        → CombinationsAreAscending entries.new.items) }
{
    let mut end = AscendingListEnd {
        last: Cell::null(),
        ascends: entries.is_empty(),
    };
    for place in places {
        end = push_category_entry_of_slot(place, end, entries)?;
    }
    Ok(end.ascends)
}
