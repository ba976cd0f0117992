//! Labels a map run by run.

ghost use Rattle.std.specs.Prelude.{◌≡◌, ℕ, ◌<◌, ◌≤◌, ◌+◌, ◌++◌, ◌∷◌, [], ◌^◌, List, All, length, IfOk, OnOk};
ghost use Rattle.cell_core.specs.Grid.{row_at};
ghost use Rattle.cell_core.specs.Runs.{AreMaximalRuns, cells_of_runs};
ghost use Rattle.cell_clumps.specs.parts.Labels.{LabelsPointToSmallerOrSelf};
ghost use Rattle.cell_clumps.specs.parts.RunsOfLabels.{AreLabelTableAndRowLabelsOfMap, AreRowsLabelledAsRuns, StoringRunRowKeepsLabelsCorrect};

use crate::above::UnreadRowAbove;
use crate::clump::Joining;
use crate::kept_labels::RowClumpLabels;
use crate::near::{
    EarlierNeighbours, LABEL_OF_NULL, LabelledCell, clump_label_for_cell, labelled_cell_outside_map,
};
use cell_core::map::CellMap;
use cell_core::memory::Memory;
use std::alloc::Global;
use std::mem::swap;

// Labels the runs of a row. `line` holds the runs of the row above; the runs of this row are written to `below`.
#[inline(never)]
fn label_clumps_in_row_of_runs(
    alloc: Global,
    map: &CellMap,
    row: u32,
    joining: Joining,
    table: &mut Vec<u32>,
    line: &[(LabelledCell, u32)],
    below: &mut Vec<(LabelledCell, u32)>,
) -> Result<RowClumpLabels, Memory>
    requires row { row < map.now.region.rows }
    requires down { LabelsPointToSmallerOrSelf table.old.items }
    requires short { length table.old.items + map.now.region.cols < 2 ^ 31 }
    requires lengths { All (λ run. 0 < run.1) line.now }
    requires empty { below.old.items ≡ [] }
    requires read { AreRowsLabelledAsRuns joining map.now [] table.old.items line.now row }
    ensures down { OnOk result (LabelsPointToSmallerOrSelf table.new.items) }
    ensures long { OnOk result
        (length table.new.items ≤ length table.old.items + map.now.region.cols) }
    ensures lengths { OnOk result (All (λ run. 0 < run.1) below.new.items) }
    ensures read { IfOk result (λ labels. StoringRunRowKeepsLabelsCorrect joining map.now row
        table.old.items line.now
        table.new.items below.new.items labels) }
{
    let mut above = UnreadRowAbove::of(line);
    let mut near = EarlierNeighbours::neighbours_at_row_start();
    let whole = map.runs(row);
    let mut runs = Vec::with_capacity(alloc, whole.len())?;
    for run in whole {
        let mut label = LABEL_OF_NULL;
        let mut passed = 0;
        'cells: while passed < run.1 {
            near = near.under(&above, line);
            label = clump_label_for_cell(table, joining, run.0, &near)?;
            near.left = LabelledCell { cell: run.0, label };
            let step = above.alike(joining).min(run.1 - passed);
            above = above.after(line, step);
            passed += step;
        }
        below.push((LabelledCell { cell: run.0, label }, run.1))?;
        runs.push((label, run.1))?;
    }
    Ok(RowClumpLabels::of_runs(runs))
}

// The table of a map's labels, and the labels of its rows.
#[derive(Drop)]
pub(crate) struct ClumpLabelsOfMap {
    pub(crate) table: Vec<u32>,
    pub(crate) rows: Vec<RowClumpLabels>,
}

// Labels the runs of a map and joins the labels of adjacent cells of the same category. The map has `count_of_runs`
// runs.
pub(crate) fn label_clumps_by_runs(
    alloc: Global,
    map: &CellMap,
    joining: Joining,
    count_of_runs: usize,
) -> Result<ClumpLabelsOfMap, Memory>
    ensures { IfOk result (λ labels. AreLabelTableAndRowLabelsOfMap joining map.now
        labels.table.items labels.rows.items) }
{
    let region = map.region();
    let mut table = Vec::with_capacity(alloc, count_of_runs)?;
    let mut rows = Vec::with_capacity(alloc, region.rows() as usize)?;
    let mut line = Vec::with_capacity(alloc, 1)?;
    line.push((labelled_cell_outside_map(), region.cols()))?;
    let mut below = Vec::new(alloc);
    for row in 0..region.rows() {
        below.clear();
        let labels = label_clumps_in_row_of_runs(
            alloc,
            map,
            row,
            joining,
            &mut table,
            line.as_slice(),
            &mut below,
        )?;
        rows.push(labels)?;
        swap(&mut line, &mut below);
    }
    Ok(ClumpLabelsOfMap { table, rows })
}
