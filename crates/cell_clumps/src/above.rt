//! Walks the row above from left to right as labelled runs.

ghost use Rattle.std.specs.Prelude.{◌≡◌, ◌<◌, ◌≤◌, ◌+◌, length, drop, All, slice_index_or};
ghost use Rattle.cell_clumps.specs.parts.RunsOfLabels.{NextCellsAboveAreEqual, HasCurrentCellUnlessRowEnded, labelled_cells_of_runs, null_cell_without_label, unread_cells_of_row_above};

use crate::clump::Joining;
use crate::near::{LabelledCell, labelled_cell_outside_map};

// The unread part of a row of labelled runs: `count` equal cells, then the runs from index `place`.
#[derive(Clone, Copy)]
pub(crate) struct UnreadRowAbove {
    cell: LabelledCell,
    count: u32,
    place: usize,
}

impl UnreadRowAbove {
    // Starts at the beginning of a row.
    pub(crate) fn of(line: &[(LabelledCell, u32)]) -> UnreadRowAbove
        requires { All (λ run. 0 < run.1) line.now }
        ensures at { HasCurrentCellUnlessRowEnded result line.now }
        ensures coming { unread_cells_of_row_above result line.now
            ≡ labelled_cells_of_runs line.now }
    {
        let start = UnreadRowAbove {
            cell: labelled_cell_outside_map(),
            count: 0,
            place: 0,
        };
        start.after(line, 0)
    }

    // Returns the next cell.
    #[inline(always)]
    pub(crate) fn first(&self, line: &[(LabelledCell, u32)]) -> LabelledCell
        requires at { HasCurrentCellUnlessRowEnded self.now line.now }
        ensures { result ≡ slice_index_or (unread_cells_of_row_above self.now line.now) 0
            null_cell_without_label }
    {
        if self.count == 0 {
            labelled_cell_outside_map()
        } else {
            self.cell
        }
    }

    // Returns the cell after the next.
    #[inline(always)]
    pub(crate) fn second(&self, line: &[(LabelledCell, u32)]) -> LabelledCell
        requires at { HasCurrentCellUnlessRowEnded self.now line.now }
        requires lengths { All (λ run. 0 < run.1) line.now }
        ensures { result ≡ slice_index_or (unread_cells_of_row_above self.now line.now) 1
            null_cell_without_label }
    {
        if self.count > 1 {
            return self.cell;
        }
        match line.get(self.place) {
            Some(run) => run.0,
            None => labelled_cell_outside_map(),
        }
    }

    // Returns the number of equal cells, counted from the next cell, whose neighbours in this row are also equal.
    #[inline(always)]
    pub(crate) fn alike(&self, joining: Joining) -> u32
        requires { 0 < self.now.count }
        ensures some { 0 < result }
        ensures alike { NextCellsAboveAreEqual joining self.now result }
    {
        match joining {
            Joining::Edges => self.count,
            Joining::EdgesAndCorners => { if self.count > 1 { self.count - 1 } else { 1 } }
        }
    }

    // Returns the part of the row that is left after `count` of the equal cells.
    #[inline(always)]
    pub(crate) fn after(&self, line: &[(LabelledCell, u32)], count: u32) -> UnreadRowAbove
        requires within { count ≤ self.now.count }
        requires lengths { All (λ run. 0 < run.1) line.now }
        ensures at { HasCurrentCellUnlessRowEnded result line.now }
        ensures coming { unread_cells_of_row_above result line.now
            ≡ drop count (unread_cells_of_row_above self.now line.now) }
    {
        if count < self.count {
            return UnreadRowAbove {
                cell: self.cell,
                count: self.count - count,
                place: self.place,
            };
        }
        match line.get(self.place) {
            Some(run) => UnreadRowAbove {
                cell: run.0,
                count: run.1,
                place: self.place + 1,
            },
            None => UnreadRowAbove {
                cell: self.cell,
                count: 0,
                place: self.place,
            },
        }
    }
}
