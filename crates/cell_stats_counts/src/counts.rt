//! Counts how many times each combination occurs.

ghost use Rattle.std.specs.Prelude.{◌≡◌, ◌+◌, ◌<◌, ◌≤◌, All, OnOk, IfOk, length, map};
ghost use Rattle.cell_core_values.specs.Region.{IsValidRegion};
ghost use Rattle.cell_stats_combinations.specs.Combinations.{ArePicksOnShelf, Combination, shelf_combinations};
ghost use Rattle.cell_stats_counts.specs.Counts.{cell_count_of_combination, AreCountsOfCombinations};
ghost use Rattle.cell_stats_combinations.specs.Cursors.{to_come, CursorHasNoEmptyLaterRun, RowsAreAsWideAsRegion, row_of_map_at_place};
ghost use Rattle.cell_stats_counts.specs.parts.CountsUnderWay.{counted_cell_count_of_combination, AreCellsAboveRowCounted, CanContinueCountingCombinations};
ghost use Rattle.cell_stats_combinations.specs.LeftOut.{kept_cells};

use crate::alone::count_cells_of_one_map;
use crate::counting::{CombinationCounter, add_combination_count, empty_combination_counter};
use crate::paired::push_sorted_pair_entries;
use crate::varied::{count_varied_row_of_two_maps, row_changes_often};
use cell_core::cell::Cell;
use cell_core::memory::Memory;
use cell_core::shelf::Shelf;
use cell_stats_combinations::combination::Combo;
use cell_stats_combinations::cursor::{
    RowCursor, advance_cursors_and_write_cells, cursors_over_maps, move_cursors_to_row_start, start,
};
use cell_stats_combinations::gathered::push_sorted_combinations;
use cell_stats_combinations::ordered::sorted_entries_with_summed_counts;
use cell_stats_combinations::selection::TabulatedMaps;
use cell_stats_combinations::skip::{Skip, combination_is_left_out};
use std::alloc::Global;

// Counts the cells of a row in groups of columns in which no map changes, with cursors that start at its first cells.
#[inline(always)]
fn count_row_spans_with_cursors<'a>(
    alloc: Global,
    selection: TabulatedMaps<'a, '_>,
    row: u32,
    cursors: &mut [RowCursor<'a>],
    cells: &mut [Cell],
    places: &mut CombinationCounter,
    entries: &mut Vec<(Combo, u64)>,
) -> Result<(), Memory>
    requires row_in_range { row < selection.shelf.now.region.rows }
    requires region { IsValidRegion selection.shelf.now.region }
    requires first { map to_come cursors.old
        ≡ map (row_of_map_at_place selection.shelf.now.maps row) selection.picks.now }
    requires wide { RowsAreAsWideAsRegion selection.shelf.now row selection.picks.now }
    requires ready { All CursorHasNoEmptyLaterRun cursors.old }
    requires cells { length cells.old ≡ length selection.picks.now }
    requires going { CanContinueCountingCombinations
        (length selection.picks.now) places.old entries.old.items }
    requires counted { AreCellsAboveRowCounted selection.shelf.now selection.picks.now
        selection.skip row
        places.old entries.old.items }
    ensures ok { OnOk result (AreCellsAboveRowCounted selection.entry.shelf.now
        selection.entry.picks.now
        selection.entry.skip (row + 1) places.new entries.new.items) }
    ensures going { OnOk result
        (CanContinueCountingCombinations (length selection.entry.picks.now) places.new
        entries.new.items) }
{
    let cols = selection.shelf.region().cols();
    let mut col = 0;
    let mut count = advance_cursors_and_write_cells(cursors, 0, cols, cells);
    while col < cols {
        if !combination_is_left_out(selection.skip, cells) {
            add_combination_count(alloc, cells, u64::from(count), places, entries)?;
        }
        col += count;
        count = advance_cursors_and_write_cells(cursors, count, cols - col, cells);
    }
    Ok(())
}

// Counts the cells of a row in groups of columns in which no map changes.
fn count_row_by_spans<'a>(
    alloc: Global,
    selection: TabulatedMaps<'a, '_>,
    row: u32,
    cursors: &mut [RowCursor<'a>],
    cells: &mut [Cell],
    places: &mut CombinationCounter,
    entries: &mut Vec<(Combo, u64)>,
) -> Result<(), Memory>
    requires picked { ArePicksOnShelf selection.shelf.now selection.picks.now }
    requires row_in_range { row < selection.shelf.now.region.rows }
    requires region { IsValidRegion selection.shelf.now.region }
    requires cursors { length cursors.old ≡ length selection.picks.now }
    requires cells { length cells.old ≡ length selection.picks.now }
    requires going { CanContinueCountingCombinations
        (length selection.picks.now) places.old entries.old.items }
    requires counted { AreCellsAboveRowCounted selection.shelf.now selection.picks.now
        selection.skip row
        places.old entries.old.items }
    ensures ok { OnOk result (AreCellsAboveRowCounted selection.entry.shelf.now
        selection.entry.picks.now
        selection.entry.skip (row + 1) places.new entries.new.items) }
    ensures going { OnOk result
        (CanContinueCountingCombinations (length selection.entry.picks.now) places.new
        entries.new.items) }
{
    if let [first, second] = selection.picks {
        let one = selection.shelf.map(*first);
        let other = selection.shelf.map(*second);
        if row_changes_often(one, row) || row_changes_often(other, row) {
            count_varied_row_of_two_maps(
                alloc,
                one,
                other,
                row,
                selection.skip,
                &mut places.pairs,
                entries,
            )?;
            return Ok(());
        }
        // The length is known to the compiler, so that it unrolls the loops over it.
        let mut two = [start(one, row), start(other, row)];
        let mut cells = [Cell::null(); 2];
        return count_row_spans_with_cursors(
            alloc, selection, row, &mut two, &mut cells, places, entries,
        );
    }
    move_cursors_to_row_start(cursors, selection.shelf, selection.picks, row);
    count_row_spans_with_cursors(alloc, selection, row, cursors, cells, places, entries)
}

// Counts the cells of all rows.
fn count_cells_of_all_rows(
    alloc: Global,
    selection: TabulatedMaps<'_, '_>,
    places: &mut CombinationCounter,
    entries: &mut Vec<(Combo, u64)>,
) -> Result<(), Memory>
    requires picked { ArePicksOnShelf selection.shelf.now selection.picks.now }
    requires going { CanContinueCountingCombinations
        (length selection.picks.now) places.old entries.old.items }
    requires counted { AreCellsAboveRowCounted selection.shelf.now selection.picks.now
        selection.skip 0
        places.old entries.old.items }
    ensures ok { OnOk result (AreCellsAboveRowCounted selection.entry.shelf.now
        selection.entry.picks.now
        selection.entry.skip selection.entry.shelf.now.region.rows places.new entries.new.items) }
    ensures going { OnOk result
        (CanContinueCountingCombinations (length selection.entry.picks.now) places.new
        entries.new.items) }
    ensures region { OnOk result (IsValidRegion selection.entry.shelf.now.region) }
{
    let TabulatedMaps { shelf, picks, skip } = selection;
    if let [pick] = picks {
        return count_cells_of_one_map(alloc, shelf, *pick, skip, places, entries);
    }
    let mut cells = vec![in alloc; Cell::null(); picks.len()]?;
    let mut started = cursors_over_maps(alloc, shelf, picks)?;
    let cursors = started.as_mut_slice();
    for row in 0..shelf.region().rows() {
        count_row_by_spans(
            alloc,
            selection,
            row,
            cursors,
            cells.as_mut_slice(),
            places,
            entries,
        )?;
    }
    Ok(())
}

/// Returns the combinations of the picked maps' cells that are not left out, in ascending order, each with the number
/// of cells that have it. The picks are indices on the shelf; there are 1 to 16, and a map may be picked twice.
///
/// # Errors
///
/// `Memory` if memory runs out.
pub fn combination_counts_of_maps(
    alloc: Global,
    shelf: &Shelf,
    picks: &[usize],
    skip: Skip,
) -> Result<Vec<(Combo, u64)>, Memory>
    requires width { (1 ≤ length picks.now) × (length picks.now ≤ 16) }
    requires picked { ArePicksOnShelf shelf.now picks.now }
    ensures { IfOk result (λ counted.
        AreCountsOfCombinations (kept_cells skip
        (shelf_combinations shelf.now picks.now)) counted.items) }
{
    let mut places = empty_combination_counter(alloc, shelf, picks)?;
    let mut entries = Vec::new(alloc);
    let selection = TabulatedMaps { shelf, picks, skip };
    count_cells_of_all_rows(alloc, selection, &mut places, &mut entries)?;
    let width = picks.len();
    push_sorted_combinations(alloc, width, places.wide, &mut entries)?;
    if push_sorted_pair_entries(alloc, width, places.pairs, &mut entries)? {
        return Ok(entries);
    }
    Ok(sorted_entries_with_summed_counts(entries))
}
