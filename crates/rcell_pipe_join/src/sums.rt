//! Adds up tables.

ghost use Rattle.std.specs.Prelude.{◌≡◌, ◌<◌, ◌^◌, All, IfOk, flat_map, sum_by};
ghost use Rattle.cell_stats_combinations.specs.Listed.{NoEntryCountIsZero};
ghost use Rattle.rcell_pipe_join.specs.TableEntries.{AreSumsOfTables, cell_count_of_table, tables_as_values};

use crate::table_reading::EntriesOfTable;
use cell_core::memory::Memory;
use cell_stats_combinations::ordered::sorted_entries_with_summed_counts;
use std::alloc::Global;

// Returns the entries of all tables, one table after another.
fn entries_of_all_tables(
    alloc: Global,
    tables: Vec<EntriesOfTable>,
) -> Result<EntriesOfTable, Memory>
    ensures { IfOk result (λ all. all.items ≡ flat_map (λ t. t) (tables_as_values tables.items)) }
{
    let mut all = Vec::new(alloc);
    for mut table in tables {
        all.append(&mut table)?;
    }
    Ok(all)
}

/// Returns each combination of the tables once, with the sum of its counts, in ascending order.
pub(crate) fn sum_tables(
    alloc: Global,
    tables: Vec<EntriesOfTable>,
) -> Result<EntriesOfTable, Memory>
    requires some { All NoEntryCountIsZero (tables_as_values tables.items) }
    requires few { sum_by cell_count_of_table (tables_as_values tables.items) < 2 ^ 64 }
    ensures { IfOk result (λ sums. AreSumsOfTables (tables_as_values tables.items) sums.items) }
{
    let all = entries_of_all_tables(alloc, tables)?;
    Ok(sorted_entries_with_summed_counts(all))
}
