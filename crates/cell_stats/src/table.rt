//! Tables, and iterators over their entries.

ghost use Rattle.std.specs.Prelude.{◌≡◌, ◌≤◌, length, map, drop, All, IfSome};
ghost use Rattle.std.specs.Iterator.{YieldsFirstBy, item_count};
ghost use Rattle.std.specs.List.Sorted.{IsStrictlySortedBy};
ghost use Rattle.cell_stats_combinations.specs.Combinations.{combination_cmp};
ghost use Rattle.std.specs.Option.{option_map};
ghost use Rattle.cell_stats.specs.CategoryTables.{CombinationsWithCounts, TableValue, entries_after_combination};
ghost use Rattle.cell_stats.specs.TableText.{table_entries_to_print};
ghost use Rattle.cell_stats_combinations.specs.Listed.{CombinationsAreAscending};

use cell_stats_combinations::combination::Combo;
use std::cmp::Ordering;
use std::marker::Model;

/// The combinations of several maps that occur and are not left out, in ascending order, each with its count.
#[derive(Drop)]
pub struct Table {
    width: usize,
    entries: Vec<(Combo, u64)>,
}

impl Model for Table {
    ghost use Rattle.std.specs.Prelude.{◌≡◌, map, All, length};
    ghost use Rattle.std.specs.List.Sorted.{IsStrictlySortedBy};
    ghost use Rattle.cell_stats_combinations.specs.Combinations.{combination_cmp};
    ghost use Rattle.cell_stats.specs.CategoryTables.{TableValue};
    ghost use Rattle.cell_stats.specs.parts.PairsCode.{table_encoding};

    ghost Value = { TableValue };

    ghost coded = { table_encoding };

    ghost view = { λ t. record { width = t.width; pairs = t.entries.items } };

    ghost invariant = { λ t. IsStrictlySortedBy combination_cmp (map (λ pair. pair.0) t.entries.items) × All (λ pair. length pair.0 ≡ t.width) t.entries.items };
}

// Returns the index of the first entry after a combination, using binary search.
fn place_after_combination(entries: &[(Combo, u64)], combo: &Combo) -> usize
    requires { CombinationsAreAscending entries.now }
    ensures rest { drop result entries.now ≡ entries_after_combination combo.now entries.now }
    ensures within { result ≤ length entries.now }
{
    let mut low = 0;
    let mut high = entries.len();
    while low < high {
        let middle = low + (high - low) / 2;
        match combo.cmp(&entries[middle].0) {
            Ordering::Less => high = middle,
            _ => low = middle + 1,
        }
    }
    low
}

impl Table {
    // Returns the table with these entries.
    pub(crate) fn of(width: usize, entries: Vec<(Combo, u64)>) -> Table
        requires ascending { CombinationsAreAscending entries.items }
        requires wide { All (λ pair. length pair.0 ≡ width) entries.items }
        ensures { result ≡ record { width = width; pairs = entries.items } }
    {
        Table { width, entries }
    }

    /// Returns the number of entries.
    pub fn len(&self) -> usize
        ensures { result ≡ length self.now.pairs }
    {
        self.entries.len()
    }

    /// Returns the number of maps, which is the number of cells in each combination.
    pub fn width(&self) -> usize
        ensures value { result ≡ self.now.width }
        ensures wide { All (λ pair. length pair.0 ≡ self.now.width) self.now.pairs }
    {
        self.width
    }

    /// Returns an iterator over all entries in ascending order.
    pub fn all(&self) -> Listing<'_>
        ensures { result ≡ self.now.pairs }
    {
        Listing {
            rest: &self.entries,
        }
    }

    /// Returns an iterator over the entries after a combination. The combination must have one cell per map, but need
    /// not occur.
    pub fn after(&self, combo: &Combo) -> Listing<'_>
        requires { length combo.now ≡ self.now.width }
        ensures { result ≡ entries_after_combination combo.now self.now.pairs }
    {
        let at = place_after_combination(&self.entries, combo);
        Listing {
            rest: &self.entries[at..],
        }
    }

    // Returns all entries, or the entries after a combination.
    pub(crate) fn printed_entries(&self, after: Option<&Combo>) -> &[(Combo, u64)]
        requires { IfSome after (λ k. length k.now ≡ self.now.width) }
        ensures value { result.now
            ≡ table_entries_to_print (option_map (λ k. k.now) after.entry) self.now.pairs }
        ensures wide { All (λ pair. length pair.0 ≡ self.now.width) result.now }
    {
        match after {
            None => &self.entries,
            Some(combo) => &self.entries[place_after_combination(&self.entries, combo)..],
        }
    }
}

/// A combination and the number of times it occurs.
#[derive(Clone, Copy)]
pub struct Entry<'a> {
    /// The combination.
    pub combo: &'a Combo,
    /// The number of cells with this combination.
    pub count: u64,
}

/// An iterator over entries of a table, in ascending order. In contracts, its value is the list of remaining entries.
#[derive(Drop)]
pub struct Listing<'a> {
    rest: &'a [(Combo, u64)],
}

impl<'a> Model for Listing<'a> {
    ghost use Rattle.cell_stats.specs.CategoryTables.{CombinationsWithCounts};

    ghost Value = { CombinationsWithCounts };

    ghost view = { λ l. l.rest.now };
}

impl<'a> Iterator for Listing<'a> {
    type Item = Entry<'a>;

    ghost next_gives = { YieldsFirstBy (λ e. (e.combo.now, e.count)) (λ s. s) };

    ghost remaining = { item_count (λ s. s) };

    fn next(&mut self) -> Option<Entry<'a>> {
        let (first, others) = self.rest.split_first()?;
        self.rest = others;
        Some(Entry {
            combo: &first.0,
            count: first.1,
        })
    }
}
