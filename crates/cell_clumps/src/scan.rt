//! Labels a map cell by cell.

ghost use Rattle.std.specs.Prelude.{◌≡◌, ◌<◌, ◌≤◌, ◌+◌, ◌^◌, [], All, None, IfOk, OnOk, length};
ghost use Rattle.cell_clumps.specs.parts.Labels.{LabelsPointToSmallerOrSelf};
ghost use Rattle.cell_clumps.specs.parts.RunsOfLabels.{AreLabelTableAndRowLabelsOfMap, AreRowsLabelledAndStored, StoringCellRowKeepsLabelsCorrect};

use crate::clump::Joining;
use crate::kept_labels::RowClumpLabels;
use crate::near::{
    EarlierNeighbours, LabelledCell, clump_label_for_cell, labelled_cell_outside_map,
};
use crate::run_scan::ClumpLabelsOfMap;
use cell_core::cell::Cell;
use cell_core::map::CellMap;
use cell_core::memory::Memory;
use std::alloc::Global;

// Labels the cells of a row. The line holds the row above before the call and this row after it, followed by null.
#[inline(never)]
fn label_clumps_in_row(
    map: &CellMap,
    row: u32,
    joining: Joining,
    table: &mut Vec<u32>,
    cells: &mut [Cell],
    line: &mut [LabelledCell],
) -> Result<(), Memory>
    requires row { row < map.now.region.rows }
    requires wide { length cells.old ≡ map.now.region.cols }
    requires down { LabelsPointToSmallerOrSelf table.old.items }
    requires short { length table.old.items + map.now.region.cols < 2 ^ 31 }
    requires nulls { All (λ x. x.cell ≡ None → x.label ≡ 4294967295) line.old }
    requires read { AreRowsLabelledAndStored joining map.now [] table.old.items line.old row }
    ensures down { OnOk result (LabelsPointToSmallerOrSelf table.new.items) }
    ensures long { OnOk result
        (length table.new.items ≤ length table.old.items + map.now.region.cols) }
    ensures nulls { OnOk result (All (λ x. x.cell ≡ None → x.label ≡ 4294967295) line.new) }
    ensures read { OnOk result (StoringCellRowKeepsLabelsCorrect joining map.now row table.old.items
        line.old
        table.new.items line.new) }
{
    map.copy_row(row, cells);
    let mut near = EarlierNeighbours::neighbours_at_row_start();
    for col in 0..cells.len() {
        near = near.neighbours_one_column_on(line, col);
        let cell = cells[col];
        let label = clump_label_for_cell(table, joining, cell, &near)?;
        near.left = LabelledCell { cell, label };
        line[col] = LabelledCell { cell, label };
    }
    Ok(())
}

// Labels the cells of a map and joins the labels of adjacent cells of the same category. The map has `count_of_runs`
// runs.
pub(crate) fn label_clumps_by_cells(
    alloc: Global,
    map: &CellMap,
    joining: Joining,
    count_of_runs: usize,
) -> Result<ClumpLabelsOfMap, Memory>
    ensures { IfOk result (λ labels. AreLabelTableAndRowLabelsOfMap joining map.now
        labels.table.items labels.rows.items) }
{
    let region = map.region();
    let cols = region.cols() as usize;
    let mut table = Vec::with_capacity(alloc, count_of_runs)?;
    let mut rows = Vec::with_capacity(alloc, region.rows() as usize)?;
    let mut buffer = vec![in alloc; Cell::null(); cols]?;
    let cells = buffer.as_mut_slice();
    let mut whole = vec![in alloc; labelled_cell_outside_map(); cols + 1]?;
    let line = whole.as_mut_slice();
    for row in 0..region.rows() {
        label_clumps_in_row(map, row, joining, &mut table, cells, line)?;
        rows.push(RowClumpLabels::store_labels_of_cells(alloc, &line[..cols])?)?;
    }
    Ok(ClumpLabelsOfMap { table, rows })
}
