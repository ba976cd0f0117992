//! Laws about tables of cells.

ghost use Rattle.cell_stats.specs.TableLaw.{TableCountsAddUpToCells, TableLeavesOutNull, SkipRuleLeavesOutEntries, TableListsOccurringCombinations};

/// The table of cells contains exactly the combinations that occur and are not left out, in strictly ascending order,
/// each with its count. No other list does (r.stats manual).
pub fn table_lists_occurring_combinations()
    ensures { TableListsOccurringCombinations }
{}

/// The counts of a table that leaves nothing out add up to the number of cells in the region.
pub fn table_counts_add_up_to_cells()
    ensures { TableCountsAddUpToCells }
{}

/// A table under a skip rule is the full table without the entries that the rule leaves out.
pub fn skip_rule_leaves_out_entries()
    ensures { SkipRuleLeavesOutEntries }
{}

/// The table of one map that leaves out null is the full table without the entry of null.
pub fn table_leaves_out_null()
    ensures { TableLeavesOutNull }
{}
