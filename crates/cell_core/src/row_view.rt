//! Views of stored rows.

ghost use Rattle.std.specs.Prelude.{◌≡◌, ◌<◌, ◌^◌, length, All, None, IfSome, slice_index_or};
ghost use Rattle.cell_core_values.specs.SmallCells.{cells_of_bytes};
ghost use Rattle.cell_core.specs.Runs.{AreMaximalRuns, cells_of_runs};

use crate::runs::{Runs, cell_at_column_of_runs, write_cells_of_runs};
use crate::stretches::RunsOrCells;
use cell_core_values::cell::Cell;
use cell_core_values::small_cells::{cell_of_byte, write_bytes_as_cells};
use std::marker::Model;

/// A view of a row in its stored form.
#[derive(Drop)]
pub(crate) struct RowView<'a> {
    form: RowViewForm<'a>,
}

#[derive(Drop)]
enum RowViewForm<'a> {
    Runs(&'a [(Cell, u32)]),
    Bytes(&'a [u8]),
    Cells(&'a [Cell]),
}

impl<'a> Model for RowView<'a> {
    ghost use Rattle.std.specs.Prelude.{List};
    ghost use Rattle.cell_core.specs.Grid.{CellValue};
    ghost use Rattle.cell_core.specs.parts.RowForms.{cells_of_view, IsValidRowView};

    ghost Value = { List CellValue };

    ghost view = { λ row. cells_of_view row.form };

    ghost invariant = { λ row. IsValidRowView row.form };
}

impl<'a> RowView<'a> {
    // Returns a view of a row given as runs.
    pub(crate) fn of_runs(runs: &'a [(Cell, u32)]) -> RowView<'a>
        requires { AreMaximalRuns runs.now }
        ensures { result ≡ cells_of_runs runs.now }
    {
        RowView {
            form: RowViewForm::Runs(runs),
        }
    }

    // Returns a view of a row given as bytes.
    pub(crate) fn of_bytes(bytes: &'a [u8]) -> RowView<'a>
        requires { length bytes.now < 2 ^ 32 }
        ensures { result ≡ cells_of_bytes bytes.now }
    {
        RowView {
            form: RowViewForm::Bytes(bytes),
        }
    }

    // Returns a view of a row given as cells.
    pub(crate) fn of_cells(cells: &'a [Cell]) -> RowView<'a>
        requires { length cells.now < 2 ^ 32 }
        ensures { result ≡ cells.now }
    {
        RowView {
            form: RowViewForm::Cells(cells),
        }
    }

    // Returns the cell at a column, or null past the end.
    pub(crate) fn cell(self, col: u32) -> Cell
        ensures { result ≡ slice_index_or self.entry col None }
    {
        match self.form {
            RowViewForm::Runs(runs) => cell_at_column_of_runs(runs, col),
            RowViewForm::Bytes(bytes) => match bytes.get(col as usize) {
                Some(byte) => cell_of_byte(*byte),
                None => Cell::null(),
            },
            RowViewForm::Cells(cells) => match cells.get(col as usize) {
                Some(cell) => *cell,
                None => Cell::null(),
            },
        }
    }

    // Copies the cells into a slice of the same length.
    pub(crate) fn copy_to(self, cells: &mut [Cell])
        requires { length cells.old ≡ length self }
        ensures { cells.new ≡ self.entry }
    {
        match self.form {
            RowViewForm::Runs(runs) => write_cells_of_runs(runs, cells),
            RowViewForm::Bytes(bytes) => write_bytes_as_cells(bytes, cells),
            RowViewForm::Cells(kept) => cells.copy_from_slice(kept),
        }
    }

    // Returns an iterator over the runs, from left to right.
    pub(crate) fn runs(self) -> Runs<'a>
        ensures written { cells_of_runs result ≡ self.entry }
        ensures runs { AreMaximalRuns result }
    {
        match self.form {
            RowViewForm::Runs(runs) => Runs::over(runs),
            RowViewForm::Bytes(bytes) => Runs::of_bytes(bytes),
            RowViewForm::Cells(cells) => Runs::of_cells(cells),
        }
    }

    // Returns the bytes that stand for the cells, if the row is stored as bytes.
    pub(crate) fn bytes(self) -> Option<&'a [u8]>
        ensures { IfSome result (λ bytes. cells_of_bytes bytes.now ≡ self.entry) }
    {
        match self.form {
            RowViewForm::Bytes(bytes) => Some(bytes),
            _ => None,
        }
    }

    // Returns the cells, if the row is stored as cells.
    pub(crate) fn cells(self) -> Option<&'a [Cell]>
        ensures { IfSome result (λ cells. cells.now ≡ self.entry) }
    {
        match self.form {
            RowViewForm::Cells(cells) => Some(cells),
            _ => None,
        }
    }

    // Returns an iterator over the stretches, from left to right.
    pub(crate) fn stretches(self) -> RunsOrCells<'a>
        ensures written { cells_of_runs result ≡ self.entry }
        ensures some { All (λ run. 0 < run.1) result }
    {
        match self.form {
            RowViewForm::Runs(runs) => RunsOrCells::of_runs(runs),
            RowViewForm::Bytes(bytes) => RunsOrCells::of_bytes(bytes),
            RowViewForm::Cells(cells) => RunsOrCells::of_cells(cells),
        }
    }
}
