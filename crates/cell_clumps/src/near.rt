//! Finds the neighbours of a cell that precede it in row order, and the label that the cell shares with them.

ghost use Rattle.std.specs.Prelude.{◌≡◌, ◌<◌, ◌≤◌, ◌+◌, ◌^◌, length, All, None, Some, IsSome, IfOk, OnOk, slice_index_or};
ghost use Rattle.cell_clumps.specs.declared.clump.Joining.TheVariants.{Edges, EdgesAndCorners};
ghost use Rattle.cell_clumps.specs.parts.Labels.{LabelsPointToSmallerOrSelf};
ghost use Rattle.cell_clumps.specs.parts.RunsOfLabels.{HasCurrentCellUnlessRowEnded, neighbours_of_next_cell_in_row, null_cell_without_label, unread_cells_of_row_above};
ghost use Rattle.cell_clumps.specs.parts.ClumpsRead.{AreNeighbourLabelsInTable, CanShareNeighbourLabel, IsCorrectLabelForNextCell, IsLabelSharedWithNeighbour, IsLabelSharedAtCorners, neighbours_at_next_column};

use crate::above::UnreadRowAbove;
use crate::clump::Joining;
use crate::labels::join_labels;
use cell_core::cell::Cell;
use cell_core::memory::Memory;

// A cell with its label or its number.
#[derive(Clone, Copy)]
pub(crate) struct LabelledCell {
    pub(crate) cell: Cell,
    pub(crate) label: u32,
}

// The label of null. It is larger than the index of any table entry.
pub(crate) const LABEL_OF_NULL: u32 = u32::MAX;

// Returns the cell beyond the edge of the map: null, without a label.
pub(crate) fn labelled_cell_outside_map() -> LabelledCell
    ensures { result ≡ null_cell_without_label }
{
    LabelledCell {
        cell: Cell::null(),
        label: LABEL_OF_NULL,
    }
}

// The earlier neighbours of a cell; null beyond the edge of the map.
#[derive(Clone, Copy)]
pub(crate) struct EarlierNeighbours {
    pub(crate) left: LabelledCell,
    pub(crate) upper_left: LabelledCell,
    pub(crate) above: LabelledCell,
    pub(crate) upper_right: LabelledCell,
}

impl EarlierNeighbours {
    // Returns the earlier neighbours at the start of a row, all outside the map.
    #[inline(always)]
    pub(crate) fn neighbours_at_row_start() -> EarlierNeighbours
        ensures left { result.left.cell ≡ None }
        ensures above { result.above.cell ≡ None }
    {
        EarlierNeighbours {
            left: labelled_cell_outside_map(),
            upper_left: labelled_cell_outside_map(),
            above: labelled_cell_outside_map(),
            upper_right: labelled_cell_outside_map(),
        }
    }

    // Returns the neighbours of the cell at column `col`, given the neighbours of the previous cell, which is now on
    // the left.
    #[inline(always)]
    pub(crate) fn neighbours_one_column_on(
        self,
        line: &[LabelledCell],
        col: usize,
    ) -> EarlierNeighbours
        requires { col + 1 < length line.now }
        ensures { result ≡ neighbours_at_next_column line.now col self }
    {
        EarlierNeighbours {
            left: self.left,
            upper_left: self.above,
            // Copied field by field. If both fields are copied at once, they are read as one number, which costs a
            // shift per cell.
            above: LabelledCell {
                cell: line[col].cell,
                label: line[col].label,
            },
            upper_right: line[col + 1],
        }
    }

    // Returns the neighbours of the next cell, given the neighbours of the previous cell and the rest of the row above.
    #[inline(always)]
    pub(crate) fn under(
        self,
        coming: &UnreadRowAbove,
        line: &[(LabelledCell, u32)],
    ) -> EarlierNeighbours
        requires at { HasCurrentCellUnlessRowEnded coming.now line.now }
        requires lengths { All (λ run. 0 < run.1) line.now }
        ensures { result ≡ neighbours_of_next_cell_in_row self
            (unread_cells_of_row_above coming.now line.now) }
    {
        EarlierNeighbours {
            left: self.left,
            upper_left: self.above,
            above: coming.first(line),
            upper_right: coming.second(line),
        }
    }
}

// Returns the label that a cell shares with a neighbour along an edge, if there is one. If there are two such
// neighbours, joins their labels, unless the neighbour on the upper left has already joined them.
#[inline(always)]
fn label_shared_along_edge(table: &mut [u32], cell: Cell, near: &EarlierNeighbours) -> Option<u32>
    requires { CanShareNeighbourLabel cell table.old near.now }
    ensures down { LabelsPointToSmallerOrSelf table.new }
    ensures left { near.now.left.cell ≡ cell → result ≡ Some near.now.left.label }
    ensures label { IsLabelSharedWithNeighbour Edges cell near.now table.old table.new result }
{
    if near.left.cell != cell {
        return if near.above.cell == cell {
            Some(near.above.label)
        } else {
            None
        };
    }
    if near.above.cell == cell && near.upper_left.cell != cell {
        join_labels(table, near.above.label, near.left.label);
    }
    Some(near.left.label)
}

// Returns the label that a cell shares with a neighbour along an edge or at a corner, if there is one. Joins the labels
// of two such neighbours, unless the neighbour above, which touches all others, has already joined them.
#[inline(always)]
fn label_shared_at_edge_or_corner(
    table: &mut [u32],
    cell: Cell,
    near: &EarlierNeighbours,
) -> Option<u32>
    requires { CanShareNeighbourLabel cell table.old near.now }
    ensures down { LabelsPointToSmallerOrSelf table.new }
    ensures left { near.now.left.cell ≡ cell → result ≡ Some near.now.left.label }
    ensures label { IsLabelSharedWithNeighbour EdgesAndCorners cell near.now table.old table.new
        result }
{
    if near.left.cell != cell {
        if near.above.cell == cell {
            return Some(near.above.label);
        }
        return label_shared_at_corner(table, cell, near);
    }
    if near.upper_right.cell == cell && near.above.cell != cell {
        join_labels(table, near.upper_right.label, near.left.label);
    }
    Some(near.left.label)
}

// Returns the label that a cell shares with a neighbour at a corner, if there is one. If there are two such neighbours,
// joins their labels.
#[inline(always)]
fn label_shared_at_corner(table: &mut [u32], cell: Cell, near: &EarlierNeighbours) -> Option<u32>
    requires { CanShareNeighbourLabel cell table.old near.now }
    ensures down { LabelsPointToSmallerOrSelf table.new }
    ensures label { IsLabelSharedAtCorners cell near.now table.old table.new result }
{
    if near.upper_left.cell != cell {
        return if near.upper_right.cell == cell {
            Some(near.upper_right.label)
        } else {
            None
        };
    }
    if near.upper_right.cell == cell && near.upper_right.label != near.upper_left.label {
        join_labels(table, near.upper_right.label, near.upper_left.label);
    }
    Some(near.upper_left.label)
}

// Returns the label that a cell shares with its earlier neighbours, if there is one.
#[inline(always)]
fn label_shared_with_neighbour(
    table: &mut [u32],
    joining: Joining,
    cell: Cell,
    near: &EarlierNeighbours,
) -> Option<u32>
    requires { CanShareNeighbourLabel cell table.old near.now }
    ensures down { LabelsPointToSmallerOrSelf table.new }
    ensures left { near.now.left.cell ≡ cell → result ≡ Some near.now.left.label }
    ensures label { IsLabelSharedWithNeighbour joining cell near.now table.old table.new result }
{
    match joining {
        Joining::Edges => label_shared_along_edge(table, cell, near),
        Joining::EdgesAndCorners => label_shared_at_edge_or_corner(table, cell, near),
    }
}

// Labels a cell: returns a label that it shares with a neighbour, otherwise a new label. Null has no label.
#[inline(always)]
pub(crate) fn clump_label_for_cell(
    table: &mut Vec<u32>,
    joining: Joining,
    cell: Cell,
    near: &EarlierNeighbours,
) -> Result<u32, Memory>
    requires down { LabelsPointToSmallerOrSelf table.old.items }
    requires inside { AreNeighbourLabelsInTable (length table.old.items) near.now }
    requires short { length table.old.items < 2 ^ 31 }
    ensures down { OnOk result (LabelsPointToSmallerOrSelf table.new.items) }
    ensures long { OnOk result (length table.new.items ≤ length table.old.items + 1) }
    ensures read { IfOk result (IsCorrectLabelForNextCell joining cell near.now table.old.items
        table.new.items) }
    ensures alike { IfOk result (λ label. near.now.left.cell ≡ cell → IsSome cell
        → label ≡ near.now.left.label) }
    ensures null { IfOk result (λ label. cell ≡ None → label ≡ 4294967295) }
{
    if !cell.get().is_some() {
        return Ok(LABEL_OF_NULL);
    }
    if let Some(label) = label_shared_with_neighbour(table.as_mut_slice(), joining, cell, near) {
        return Ok(label);
    }
    let label = table.len() as u32;
    table.push(label)?;
    Ok(label)
}
