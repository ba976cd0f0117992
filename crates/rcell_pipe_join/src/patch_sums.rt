//! Adds up patch tables by the numbers of patches in the full map.

ghost use Rattle.std.specs.Prelude.{◌≡◌, ◌++◌, ◌∷◌, [], ◌<◌, ◌^◌, Option, ℕ, All, IfOk, OnOk, flat_map, if◌then◌else◌, map, sum_by};
ghost use Rattle.std.specs.Ordering.{eq_by_cmp};
ghost use Rattle.rcell_pipe_join.specs.PatchTables.{cell_count_of_tile_table, entries_of_number, number_cmp, others_of_number, patch_tables_as_values};
ghost use Rattle.rcell_pipe_join.specs.parts.TableCounts.{AreListedSumsOfGroups, AreListedSumsOfPatchTables, CanBeSummed, NoCountOfTileTableIsZero, entries_in_groups};

use crate::patch_tables::{PatchTable, PatchTables, full_map_number_of_cell};
use crate::table_reading::EntriesOfTable;
use cell_core::memory::Memory;
use cell_join_patches::patch_numbering::PatchNumbering;
use cell_stats_combinations::combination::Combo;
use cell_stats_combinations::ordered::sorted_entries_with_summed_counts;
use std::alloc::Global;
use std::collections::BTreeMap;

// Entries by the number of their patch in the full map. Entries outside patches have no number.
type Groups = BTreeMap<Option<u64>, EntriesOfTable>;

/// The sums of patch tables.
#[derive(Debug, Drop)]
pub(crate) struct PatchSums {
    /// The number of the patch of each entry, or `None` outside patches.
    pub numbers: Vec<Option<u64>>,
    /// The entries without their first cells.
    pub entries: EntriesOfTable,
}

// Adds an entry to the entries of a number.
fn add_to_group(
    alloc: Global,
    groups: &mut Groups,
    number: Option<u64>,
    entry: (Combo, u64),
) -> Result<(), Memory>
    ensures { OnOk result ((n : Option ℕ) → entries_in_groups n groups.new.entries
        ≡ entries_in_groups n groups.old.entries
        ++ (if eq_by_cmp number_cmp n number then entry ∷ [] else [])) }
{
    let mut entries = groups.remove(&number).unwrap_or(Vec::new(alloc));
    entries.push(entry)?;
    groups.insert(number, entries)?;
    Ok(())
}

// Adds an entry of a table to the entries of its patch's number, without the first cell.
fn add_entry(
    alloc: Global,
    numbering: &PatchNumbering,
    tile: u64,
    groups: &mut Groups,
    entry: (Combo, u64),
) -> Result<(), Memory>
    ensures { OnOk result ((n : Option ℕ) → entries_in_groups n groups.new.entries
        ≡ entries_in_groups n groups.old.entries
        ++ others_of_number numbering.now tile n entry.0 entry.1) }
{
    let Some((cell, others)) = entry.0.cells().split_first() else {
        return Ok(());
    };
    let number = full_map_number_of_cell(numbering, tile, *cell);
    let others = Combo::from_cells(alloc, others)?;
    add_to_group(alloc, groups, number, (others, entry.1))
}

// Adds the entries of a table to the entries of their patches' numbers.
fn add_table(
    alloc: Global,
    numbering: &PatchNumbering,
    groups: &mut Groups,
    table: PatchTable,
) -> Result<(), Memory>
    ensures { OnOk result ((n : Option ℕ) → entries_in_groups n groups.new.entries
        ≡ entries_in_groups n groups.old.entries
        ++ entries_of_number numbering.now n (table.tile, table.entries.items)) }
{
    for entry in table.entries {
        add_entry(alloc, numbering, table.tile, groups, entry)?;
    }
    Ok(())
}

// Returns the entries of all tables by the number of their patch.
fn groups_of_tables(
    alloc: Global,
    numbering: &PatchNumbering,
    tables: Vec<PatchTable>,
) -> Result<Groups, Memory>
    ensures { IfOk result (λ groups. (n : Option ℕ) → entries_in_groups n groups.entries
        ≡ flat_map (λ entries. entries)
        (map (entries_of_number numbering.now n) (patch_tables_as_values tables.items))) }
{
    let mut groups = BTreeMap::new(alloc);
    for table in tables {
        add_table(alloc, numbering, &mut groups, table)?;
    }
    Ok(groups)
}

// Appends a number for each entry.
fn push_number_of_entries(
    numbers: &mut Vec<Option<u64>>,
    number: Option<u64>,
    entries: &[(Combo, u64)],
) -> Result<(), Memory>
    ensures { OnOk result (numbers.new.items
        ≡ numbers.old.items ++ map (λ entry. number) entries.now) }
{
    for entry in entries {
        numbers.push(number)?;
    }
    Ok(())
}

// Adds up the entries of each number, and lists the sums of all numbers.
fn sums_of_groups(alloc: Global, groups: Groups) -> Result<PatchSums, Memory>
    requires { (n : Option ℕ) → CanBeSummed (entries_in_groups n groups.entries) }
    ensures { IfOk result
        (λ sums. AreListedSumsOfGroups groups.entries sums.numbers.items sums.entries.items) }
{
    let mut numbers = Vec::new(alloc);
    let mut entries = Vec::new(alloc);
    for (number, group) in groups {
        let mut sums = sorted_entries_with_summed_counts(group);
        push_number_of_entries(&mut numbers, number, sums.as_slice())?;
        entries.append(&mut sums)?;
    }
    Ok(PatchSums { numbers, entries })
}

/// Returns the sums of patch tables: each pair of a number and a combination of the other cells once, in ascending
/// order, with the sum of its counts.
pub(crate) fn sum_patch_tables(
    alloc: Global,
    numbering: &PatchNumbering,
    tables: Vec<PatchTable>,
) -> Result<PatchSums, Memory>
    requires some { All NoCountOfTileTableIsZero (patch_tables_as_values tables.items) }
    requires few { sum_by cell_count_of_tile_table (patch_tables_as_values tables.items)
        < 2 ^ 64 }
    ensures { IfOk result (λ sums. AreListedSumsOfPatchTables numbering.now
        (patch_tables_as_values tables.items) sums.numbers.items sums.entries.items) }
{
    let groups = groups_of_tables(alloc, numbering, tables)?;
    sums_of_groups(alloc, groups)
}
