//! Numbers the clumps of a map.

ghost use Rattle.std.specs.Prelude.{IfOk};
ghost use Rattle.cell_clumps.specs.Clumps.{IsClumpMapOf};
ghost use Rattle.cell_clumps.specs.declared.clump.Joining.TheVariants.{Edges};
ghost use Rattle.cell_clumps.specs.parts.RunsOfLabels.{AreLabelTableAndRowLabelsOfMap};

use crate::clump_numbers::replace_labels_by_clump_numbers;
use crate::row_numbers::clump_map_of_labels;
use crate::run_scan::{ClumpLabelsOfMap, label_clumps_by_runs};
use crate::scan::label_clumps_by_cells;
use cell_core::cell::Cell;
use cell_core::map::CellMap;
use cell_core::memory::Memory;
use cell_core::region::Region;
use std::alloc::Global;

/// Which cells are adjacent (r.clump manual: four neighbours, or eight with the flag `d`).
#[derive(Clone, Copy, Debug, PartialEq, Eq)]
pub enum Joining {
    /// Cells that share an edge.
    Edges,
    /// Cells that share an edge or touch at a corner.
    EdgesAndCorners,
}

// A map is scanned run by run if its runs have at least this many cells on average. Shorter runs cost more than single
// cells.
const MIN_MEAN_RUN_TO_SCAN_BY_RUNS: usize = 4;

// Returns the number of runs in a map.
fn number_of_runs(map: &CellMap) -> usize {
    let mut count: usize = 0;
    for row in 0..map.region().rows() {
        count = count.saturating_add(map.runs(row).len());
    }
    count
}

// Returns whether a map with this number of runs is scanned run by run.
fn is_scanned_by_runs(region: Region, count_of_runs: usize) -> bool {
    count_of_runs
        <= (region.rows() as usize * region.cols() as usize) / MIN_MEAN_RUN_TO_SCAN_BY_RUNS
}

// Labels a map by runs or by cells, whichever is faster.
fn clump_labels_of_map(
    alloc: Global,
    map: &CellMap,
    joining: Joining,
) -> Result<ClumpLabelsOfMap, Memory>
    ensures { IfOk result (λ labels. AreLabelTableAndRowLabelsOfMap joining map.now
        labels.table.items labels.rows.items) }
{
    let count_of_runs = number_of_runs(map);
    if is_scanned_by_runs(map.region(), count_of_runs) {
        return label_clumps_by_runs(alloc, map, joining, count_of_runs);
    }
    label_clumps_by_cells(alloc, map, joining, count_of_runs)
}

/// Returns the map in which each non-null cell has the number of its clump. It has the same region and no labels. Null
/// stays null.
///
/// Two cells are in the same clump if a path of adjacent cells of the same category connects them (r.clump manual).
/// Clumps are numbered 1, 2, .. in the order of their first cells, row by row from the top left (profile). For example,
/// the rows `1 2` and `2 1` become `1 2` and `3 4` by edges, but `1 2` and `2 1` by edges and corners.
///
/// In addition to the result, it allocates at most twelve bytes per run (or, if most runs are short, four bytes per
/// cell and per run), 32 bytes per row, and a few rows.
///
/// # Errors
///
/// [`Memory`] if memory runs out.
pub fn clump_with(alloc: Global, map: &CellMap, joining: Joining) -> Result<CellMap, Memory>
    ensures { IfOk result (IsClumpMapOf joining map.now) }
{
    let region = map.region();
    let mut cells = vec![in alloc; Cell::null(); region.cols() as usize]?;
    let ClumpLabelsOfMap { mut table, rows } = clump_labels_of_map(alloc, map, joining)?;
    let numbers = table.as_mut_slice();
    replace_labels_by_clump_numbers(numbers);
    clump_map_of_labels(alloc, region, numbers, rows, cells.as_mut_slice())
}

/// Numbers the clumps that are connected by edges: [`clump_with`] with [`Joining::Edges`].
///
/// # Errors
///
/// [`Memory`] if memory runs out.
pub fn clump(alloc: Global, map: &CellMap) -> Result<CellMap, Memory>
    ensures { IfOk result (IsClumpMapOf Edges map.now) }
{
    clump_with(alloc, map, Joining::Edges)
}
