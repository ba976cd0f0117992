//! Counts combinations of more than two maps side by side, and adds them to the list.

ghost use Rattle.std.specs.Prelude.{◌≡◌, ◌+◌, ◌*◌, ◌<◌, ◌^◌, ℕ, OnOk, IfOk, IsTrue, cond, drop, length, take};
ghost use Rattle.cell_stats_combinations.specs.Combinations.{Combination};
ghost use Rattle.cell_stats_combinations.specs.parts.Same.{are_same_combination};
ghost use Rattle.cell_stats_combinations.specs.Listed.{listed_count_of_combination, NoEntryCountIsZero};
ghost use Rattle.cell_stats_combinations.specs.SideBySide.{counted_combinations_of_flat_list, count_of_counted_combination, CountsMoreOfOneCombination, HasOneCombinationPerCount};

use crate::codes::{HASH_MULTIPLIER, code_of_cell};
use crate::combination::Combo;
use crate::scattered::{
    code_ranges_of_maps, combination_rank_in_ranges, map_count_with_fitting_ranks,
};
use cell_core::cell::Cell;
use cell_core::memory::Memory;
use std::alloc::Global;

// The number of places of the index in which a combination is searched. Among millions, some are far from their own
// place.
const INDEX_SLOTS_SEARCHED: usize = 1024;

// Initial number of places of the index.
const INITIAL_INDEX_SLOTS: usize = 1024;

// A place without a combination.
const EMPTY_INDEX_SLOT: u64 = u64::MAX;

// The lower half of a number.
const LOWER_HALF_MASK: u64 = u32::MAX as u64;

/// Combinations side by side, each with one cell per map, and the number of cells that have each.
///
/// Nothing is proved about the index, since the combinations at its places are compared. A combination that a search
/// misses is stored once more, and `sorted_entries_with_summed_counts` adds up equal entries at the end.
#[derive(Drop)]
pub struct CountedCombinations {
    pub(crate) cells: Vec<Cell>,
    pub(crate) counts: Vec<u64>,
    // A taken place has the upper half of a combination's number, and below it the place of the combination's count.
    index: Vec<u64>,
}

// Returns a number for a combination; each of its upper bits depends on every cell.
fn combination_hash(cells: &[Cell]) -> u64 {
    let mut number: u64 = 0;
    for cell in cells {
        number = (number.rotate_left(29) ^ code_of_cell(*cell)).wrapping_mul(HASH_MULTIPLIER);
    }
    number
}

// Returns the first place where a combination is searched, from the upper half of its number. The number of places is a
// power of two.
fn first_searched_index_slot(half: u64, places: usize) -> usize {
    (half as usize) & places.saturating_sub(1)
}

// Returns the cells of the combination at a place.
fn cells_of_combination_at(cells: &[Cell], width: usize, at: usize) -> &[Cell]
    ensures { result.now ≡ take width (drop (at * width) cells.now) }
{
    let from = at.saturating_mul(width).min(cells.len());
    let end = from.saturating_add(width).min(cells.len());
    &cells[from..end]
}

// Whether two combinations are equal.
fn are_equal_cell_lists(one: &[Cell], other: &[Cell]) -> bool
    ensures { IsTrue result → one.now ≡ other.now }
{
    if one.len() != other.len() {
        return false;
    }
    for (i, cell) in other.iter().enumerate() {
        if one[i] != *cell {
            return false;
        }
    }
    true
}

// Returns the place of a combination. If there is none, returns as an error a free place of the index near the
// combination's own, or its own place.
fn place_or_free_slot_of_combination(
    key: &[Cell],
    half: u64,
    table: &CountedCombinations,
) -> Result<usize, usize>
    ensures within { IfOk result (λ at. at < length table.now.counts.items) }
    ensures same { IfOk result (λ at.
        take (length key.now) (drop (at * length key.now) table.now.cells.items) ≡ key.now) }
{
    let index = table.index.as_slice();
    let own = first_searched_index_slot(half, index.len());
    let end = index.len().min(own.saturating_add(INDEX_SLOTS_SEARCHED));
    for slot in own..end {
        let place = index[slot];
        if place == EMPTY_INDEX_SLOT {
            return Err(slot);
        }
        let at = (place & LOWER_HALF_MASK) as usize;
        if place >> 32 == half && at < table.counts.len() {
            if are_equal_cell_lists(cells_of_combination_at(&table.cells, key.len(), at), key) {
                return Ok(at);
            }
        }
    }
    Err(own)
}

// Moves the contents of a place of an index into a larger index.
fn copy_slot_to_larger_index(index: &mut [u64], place: u64) {
    let own = first_searched_index_slot(place >> 32, index.len());
    let end = index.len().min(own.saturating_add(INDEX_SLOTS_SEARCHED));
    for slot in own..end {
        if index[slot] == EMPTY_INDEX_SLOT {
            index[slot] = place;
            return;
        }
    }
}

// Returns an index with twice as many places.
fn index_with_twice_as_many_slots(alloc: Global, index: &[u64]) -> Result<Vec<u64>, Memory> {
    let mut longer = vec![in alloc; EMPTY_INDEX_SLOT; index.len().saturating_mul(2)]?;
    for place in index {
        if *place != EMPTY_INDEX_SLOT {
            copy_slot_to_larger_index(longer.as_mut_slice(), *place);
        }
    }
    Ok(longer)
}

// Stores a new combination and its place in the index.
fn push_combination_and_index_it(
    alloc: Global,
    key: &[Cell],
    count: u64,
    place: usize,
    half: u64,
    table: &mut CountedCombinations,
) -> Result<(), Memory>
    requires side { HasOneCombinationPerCount (length key.now) table.old }
    ensures ok { OnOk result (CountsMoreOfOneCombination key.now count table.old table.new) }
    ensures side { OnOk result (HasOneCombinationPerCount (length key.now) table.new) }
{
    let at = table.counts.len();
    table.cells.extend_from_slice(key)?;
    table.counts.push(count)?;
    if let Some(named) = table.index.get_mut(place) {
        *named = half << 32 | at as u64 & LOWER_HALF_MASK;
    }
    if at >= table.index.len() / 2 {
        table.index = index_with_twice_as_many_slots(alloc, &table.index)?;
    }
    Ok(())
}

/// Counts cells of a combination.
///
/// # Errors
///
/// [`Memory`] if memory runs out.
pub fn add_to_count_of_combination(
    alloc: Global,
    key: &[Cell],
    count: u64,
    table: &mut CountedCombinations,
) -> Result<(), Memory>
    requires side { HasOneCombinationPerCount (length key.now) table.old }
    requires fits { count_of_counted_combination
        (length key.now) key.now table.old + count < 2 ^ 64 }
    ensures ok { OnOk result (CountsMoreOfOneCombination key.now count table.old table.new) }
    ensures side { OnOk result (HasOneCombinationPerCount (length key.now) table.new) }
{
    let half = combination_hash(key) >> 32;
    match place_or_free_slot_of_combination(key, half, table) {
        Ok(at) => {
            table.counts[at] += count;
            Ok(())
        }
        Err(place) => push_combination_and_index_it(alloc, key, count, place, half, table),
    }
}

// Adds an entry to the list, unless its count is 0.
fn push_entry_unless_zero(
    alloc: Global,
    cells: &[Cell],
    count: u64,
    entries: &mut Vec<(Combo, u64)>,
) -> Result<(), Memory>
    requires no_zero { NoEntryCountIsZero entries.old.items }
    ensures ok { OnOk result ((k : Combination) → listed_count_of_combination k entries.new.items
        ≡ listed_count_of_combination k entries.old.items + cond
        (are_same_combination k cells.now) count 0) }
    ensures no_zero { OnOk result (NoEntryCountIsZero entries.new.items) }
{
    if count == 0 {
        return Ok(());
    }
    let combo = Combo::from_cells(alloc, cells)?;
    entries.push((combo, count))?;
    Ok(())
}

// Adds the combinations side by side to the list.
fn push_counted_combinations(
    alloc: Global,
    width: usize,
    cells: &[Cell],
    counts: &[u64],
    entries: &mut Vec<(Combo, u64)>,
) -> Result<(), Memory>
    requires no_zero { NoEntryCountIsZero entries.old.items }
    ensures ok { OnOk result ((k : Combination) → listed_count_of_combination k entries.new.items
        ≡ listed_count_of_combination k entries.old.items + listed_count_of_combination k
        (counted_combinations_of_flat_list width cells.now counts.now)) }
    ensures no_zero { OnOk result (NoEntryCountIsZero entries.new.items) }
{
    for at in 0..counts.len() {
        push_entry_unless_zero(
            alloc,
            cells_of_combination_at(cells, width, at),
            counts[at],
            entries,
        )?;
    }
    Ok(())
}

// Returns the places of `many` combinations, sorted by their numbers.
fn places_of_sorted_combinations(
    alloc: Global,
    width: usize,
    cells: &[Cell],
    many: usize,
) -> Result<Vec<(u64, u32)>, Memory> {
    let ranges = code_ranges_of_maps(width, cells);
    let used = map_count_with_fitting_ranks(&ranges);
    let mut order = Vec::with_capacity(alloc, many)?;
    for at in 0..many.min(u32::MAX as usize) {
        order.push((
            combination_rank_in_ranges(&ranges[..used], cells_of_combination_at(cells, width, at)),
            at as u32,
        ))?;
    }
    order.sort_unstable();
    Ok(order)
}

// Moves the combination at a place, with its count, to the end of another table.
fn move_counted_combination(
    width: usize,
    cells: &[Cell],
    counts: &mut [u64],
    at: usize,
    to: &mut CountedCombinations,
) -> Result<(), Memory>
    requires side { HasOneCombinationPerCount width to.old }
    ensures ok { OnOk result ((k : Combination)
        → count_of_counted_combination width k to.new + listed_count_of_combination k
        (counted_combinations_of_flat_list width cells.now counts.new)
        ≡ count_of_counted_combination width k to.old + listed_count_of_combination k
        (counted_combinations_of_flat_list width cells.now counts.old)) }
    ensures side { OnOk result (HasOneCombinationPerCount width to.new) }
{
    let key = cells_of_combination_at(cells, width, at);
    if at >= counts.len() || key.len() != width {
        return Ok(());
    }
    to.cells.extend_from_slice(key)?;
    to.counts.push(counts[at])?;
    counts[at] = 0;
    Ok(())
}

// Moves all combinations to another table, sorted.
fn sorted_combination_table(
    alloc: Global,
    width: usize,
    from: &mut CountedCombinations,
) -> Result<CountedCombinations, Memory>
    ensures ok { IfOk result (λ to. (k : Combination)
        → count_of_counted_combination width k to + count_of_counted_combination width k from.new
        ≡ count_of_counted_combination width k from.old) }
{
    let order = places_of_sorted_combinations(alloc, width, &from.cells, from.counts.len())?;
    let mut to = CountedCombinations {
        cells: Vec::with_capacity(alloc, from.cells.len())?,
        counts: Vec::with_capacity(alloc, from.counts.len())?,
        index: Vec::new(alloc),
    };
    let cells = from.cells.as_slice();
    let counts = from.counts.as_mut_slice();
    for (_, at) in &order {
        move_counted_combination(width, cells, counts, *at as usize, &mut to)?;
    }
    Ok(to)
}

/// Adds the combinations of a table to the list, sorted.
///
/// # Errors
///
/// [`Memory`] if memory runs out.
pub fn push_sorted_combinations(
    alloc: Global,
    width: usize,
    mut table: CountedCombinations,
    entries: &mut Vec<(Combo, u64)>,
) -> Result<(), Memory>
    requires no_zero { NoEntryCountIsZero entries.old.items }
    ensures ok { OnOk result ((k : Combination) → listed_count_of_combination k entries.new.items
        ≡ listed_count_of_combination k entries.old.items + count_of_counted_combination width k
        table) }
    ensures no_zero { OnOk result (NoEntryCountIsZero entries.new.items) }
{
    table.index = Vec::new(alloc);
    let moved = sorted_combination_table(alloc, width, &mut table)?;
    push_counted_combinations(alloc, width, &table.cells, &table.counts, entries)?;
    table.cells = Vec::new(alloc);
    entries.reserve_exact(moved.counts.len())?;
    push_counted_combinations(alloc, width, &moved.cells, &moved.counts, entries)?;
    Ok(())
}

impl CountedCombinations {
    /// Returns a table without combinations.
    ///
    /// # Errors
    ///
    /// [`Memory`] if memory runs out.
    pub fn new(alloc: Global) -> Result<CountedCombinations, Memory>
        ensures none { IfOk result
            (λ table. (width : ℕ) (k : Combination)
            → count_of_counted_combination width k table ≡ 0) }
        ensures side { IfOk result (λ table. (width : ℕ) → HasOneCombinationPerCount width table) }
    {
        let index = vec![in alloc; EMPTY_INDEX_SLOT; INITIAL_INDEX_SLOTS]?;
        Ok(CountedCombinations {
            cells: Vec::new(alloc),
            counts: Vec::new(alloc),
            index,
        })
    }
}
