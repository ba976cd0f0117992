//! Laws about tables.

ghost use Rattle.cell_cats_law.specs.PageLaw.{TableSplitsAtCombination, RestOfTableIsLaterEntries};
ghost use Rattle.cell_cats_law.specs.ReclassLaw.{ReclassedCountsAreSums, UnlistedCategoryBecomesNull};

/// The entries of a table up to a combination, followed by the entries after it, are the table.
pub fn table_splits_at_combination()
    ensures { TableSplitsAtCombination }
{}

/// The rest of a table after an entry's combination is the entries after that entry.
pub fn rest_of_table_is_later_entries()
    ensures { RestOfTableIsLaterEntries }
{}

/// Null stays null. Without a rule for `*`, a category that no rule lists becomes null.
pub fn unlisted_category_becomes_null()
    ensures { UnlistedCategoryBecomesNull }
{}

/// Reclassifying neither loses a cell nor counts one twice: the count of each new category is the sum of the counts of
/// the old categories that the rules map to it, including null and categories without a rule.
pub fn reclassed_counts_are_sums()
    ensures { ReclassedCountsAreSums }
{}
