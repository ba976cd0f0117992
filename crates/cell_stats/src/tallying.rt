//! Counts the combinations of maps.

ghost use Rattle.std.specs.Prelude.{◌≡◌, ◌<◌, ◌≤◌, IfOk, length};
ghost use Rattle.cell_stats_combinations.specs.Combinations.{ArePicksOnShelf, shelf_combinations};
ghost use Rattle.cell_stats.specs.CategoryTables.{IsTable, CombinationsWithCounts, table_of_cells};

use crate::table::Table;
use cell_core::memory::Memory;
use cell_core::shelf::Shelf;
use cell_stats_combinations::skip::Skip;
use cell_stats_counts::counts::combination_counts_of_maps;
use std::alloc::Global;

/// Returns the table of the combinations of the picked maps, given by their indices on the shelf. There must be 1 to 16
/// picks; a map may be picked twice.
///
/// # Errors
///
/// `Memory` if memory runs out.
pub fn tally(alloc: Global, shelf: &Shelf, picks: &[usize], skip: Skip) -> Result<Table, Memory>
    requires width { (1 ≤ length picks.now) × (length picks.now ≤ 16) }
    requires picked { ArePicksOnShelf shelf.now picks.now }
    ensures width { IfOk result (λ table. table.width ≡ length picks.now) }
    ensures table { IfOk result
        (λ table. IsTable skip (shelf_combinations shelf.now picks.now) table.pairs) }
    ensures only { IfOk result (λ table. (pairs : CombinationsWithCounts)
        → IsTable skip (shelf_combinations shelf.now picks.now) pairs → pairs ≡ table.pairs) }
    ensures value { IfOk result
        (λ table. table.pairs ≡ table_of_cells skip (shelf_combinations shelf.now picks.now)) }
{
    let entries = combination_counts_of_maps(alloc, shelf, picks, skip)?;
    Ok(Table::of(picks.len(), entries))
}
