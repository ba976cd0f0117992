//! Sorts a list of entries, and adds up the entries of each combination.

ghost use Rattle.std.specs.Prelude.{◌≡◌, ◌+◌, ◌<◌, IsTrue, length, take};
ghost use Rattle.std.specs.declared.cmp.Ordering.TheVariants.{Less};
ghost use Rattle.cell_stats_combinations.specs.Combinations.{combination_cmp};
ghost use Rattle.cell_stats_combinations.specs.Listed.{NoEntryCountIsZero, CombinationsAreAscending, ListedCountsFitInSixtyFourBits, ListsHaveSameCounts};
ghost use Rattle.cell_stats_combinations.specs.parts.Joined.{TellsIfCombinationsAreEqual, SumOfEqualEntriesFits, CombinationsNeverDescend, AddsUpOneMoreEntry};

use crate::combination::Combo;
use std::cmp::Ordering;

// Returns whether two entries count the same combination.
fn entries_have_same_combination(entries: &[(Combo, u64)], a: usize, b: usize) -> bool
    requires { (a < length entries.now) × (b < length entries.now) }
    ensures { TellsIfCombinationsAreEqual entries.now a b result }
{
    entries[a].0 == entries[b].0
}

// Adds the entry at a place to the last entry if both have the same combination; otherwise keeps it as the next entry.
// Returns the last place.
fn add_up_or_keep_entry(entries: &mut [(Combo, u64)], last: usize, at: usize) -> usize
    requires places { (last < at) × (at < length entries.old) }
    requires fits { SumOfEqualEntriesFits entries.old last at }
    ensures joined { AddsUpOneMoreEntry entries.old last at entries.new result }
{
    if entries_have_same_combination(entries, at, last) {
        let more = entries[at].1;
        entries[last].1 += more;
        return last;
    }
    entries.swap(last + 1, at);
    last + 1
}

// Adds up the entries of each combination in an ordered list, at its start. Returns the number of combinations.
fn add_up_entries_of_combinations(entries: &mut [(Combo, u64)]) -> usize
    requires rising { CombinationsNeverDescend entries.old }
    requires fits { ListedCountsFitInSixtyFourBits entries.old }
    requires no_zero { NoEntryCountIsZero entries.old }
    ensures ascending { CombinationsAreAscending (take result entries.new) }
    ensures counts { ListsHaveSameCounts entries.old (take result entries.new) }
    ensures no_zero { NoEntryCountIsZero (take result entries.new) }
{
    if entries.is_empty() {
        return 0;
    }
    let mut last = 0;
    for at in 1..entries.len() {
        last = add_up_or_keep_entry(entries, last, at);
    }
    last + 1
}

// Returns whether a combination is less than another. In most cases, the first cells decide.
#[inline(always)]
fn combination_is_less(one: &Combo, other: &Combo) -> bool
    ensures { IsTrue result → combination_cmp one.now other.now ≡ Less }
{
    let mine = one.cells();
    let theirs = other.cells();
    if mine.len() > 0 && theirs.len() > 0 && mine[0] < theirs[0] {
        return true;
    }
    one.cmp(other) == Ordering::Less
}

// Returns whether each combination is above the one before it.
fn entries_are_ascending(entries: &[(Combo, u64)]) -> bool
    ensures { IsTrue result → CombinationsAreAscending entries.now }
{
    for at in 1..entries.len() {
        if !combination_is_less(&entries[at - 1].0, &entries[at].0) {
            return false;
        }
    }
    true
}

/// Sorts the list, with one entry per combination.
pub fn sorted_entries_with_summed_counts(mut entries: Vec<(Combo, u64)>) -> Vec<(Combo, u64)>
    requires fits { ListedCountsFitInSixtyFourBits entries.items }
    requires no_zero { NoEntryCountIsZero entries.items }
    ensures ascending { CombinationsAreAscending result.items }
    ensures counts { ListsHaveSameCounts entries.items result.items }
    ensures no_zero { NoEntryCountIsZero result.items }
{
    if entries_are_ascending(&entries) {
        return entries;
    }
    entries.sort_unstable();
    let kept = add_up_entries_of_combinations(entries.as_mut_slice());
    entries.truncate(kept);
    entries
}
