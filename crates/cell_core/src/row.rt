//! Stores a row of a map.

ghost use Rattle.std.specs.Prelude.{◌≡◌, ◌<◌, ◌^◌, length, All, IfOk};
ghost use Rattle.cell_core_values.specs.Cell.{IsNullOrCategory};
ghost use Rattle.cell_core_values.specs.SmallCells.{cells_of_bytes};
ghost use Rattle.cell_core.specs.Runs.{AreMaximalRuns, cells_of_runs};

use crate::byte_runs::{number_of_byte_runs, runs_of_bytes};
use crate::row_view::RowView;
use crate::runs::{category_of_cell, number_of_runs, runs_of_row};
use cell_core_values::cell::Cell;
use cell_core_values::memory::Memory;
use cell_core_values::small_cells::{bytes_of_cells, cells_fit_in_bytes};
use std::alloc::Global;
use std::marker::Model;

// A run takes as much memory as this many cells.
const RUN_SIZE_IN_CELLS: usize = 2;

// A run takes as much memory as this many cells stored as bytes.
const RUN_SIZE_IN_BYTES: usize = 8;

/// A row of cells, stored in its smallest form.
#[derive(Debug, Drop)]
pub(crate) struct Row {
    kept: RowForm,
}

/// A row stored as runs, or as cells if most runs are short, in one byte each if all cells have bytes. Each row is one
/// allocation of the exact size, because runs are counted first. A single list of runs for the full map took the same
/// time and memory, and rows would have to be cut out of it. With only runs, noise took 8 bytes per cell.
#[derive(Debug, Drop)]
enum RowForm {
    Runs(Vec<(Cell, u32)>),
    Bytes(Vec<u8>),
    Cells(Vec<Cell>),
}

impl Model for Row {
    ghost use Rattle.std.specs.Prelude.{List};
    ghost use Rattle.cell_core.specs.Grid.{CellValue};
    ghost use Rattle.cell_core.specs.parts.RowForms.{cells_of_stored_row, IsValidStoredRow};

    ghost Value = { List CellValue };

    ghost view = { λ row. cells_of_stored_row row.kept };

    ghost invariant = { λ row. IsValidStoredRow row.kept };
}

impl Row {
    // Stores a row of cells. Allocates at most once.
    pub(crate) fn of(alloc: Global, cells: &[Cell]) -> Result<Row, Memory>
        requires { length cells.now < 2 ^ 32 }
        ensures value { IfOk result (λ row. row ≡ cells.now) }
        ensures cells { IfOk result (λ row. All IsNullOrCategory row) }
    {
        let count = number_of_runs(cells);
        let are_short = count > cells.len() / RUN_SIZE_IN_BYTES;
        let kept = if are_short && cells_fit_in_bytes(cells) {
            RowForm::Bytes(bytes_of_cells(alloc, cells)?)
        } else if count <= cells.len() / RUN_SIZE_IN_CELLS {
            RowForm::Runs(runs_of_row(alloc, cells, count)?)
        } else {
            RowForm::Cells(Vec::from_slice(alloc, cells)?)
        };
        Ok(Row { kept })
    }

    // Stores a row of cells given as bytes. Allocates at most once.
    pub(crate) fn of_bytes(alloc: Global, bytes: &[u8]) -> Result<Row, Memory>
        requires { length bytes.now < 2 ^ 32 }
        ensures value { IfOk result (λ row. row ≡ cells_of_bytes bytes.now) }
        ensures cells { IfOk result (λ row. All IsNullOrCategory row) }
    {
        let count = number_of_byte_runs(bytes);
        let kept = if count <= bytes.len() / RUN_SIZE_IN_BYTES {
            RowForm::Runs(runs_of_bytes(alloc, bytes, count)?)
        } else {
            RowForm::Bytes(Vec::from_slice(alloc, bytes)?)
        };
        Ok(Row { kept })
    }

    // Stores a row given as runs. Allocates at most once.
    pub(crate) fn of_runs(alloc: Global, runs: &[(Cell, u32)]) -> Result<Row, Memory>
        requires { AreMaximalRuns runs.now }
        ensures value { IfOk result (λ row. row ≡ cells_of_runs runs.now) }
        ensures cells { IfOk result (λ row. All IsNullOrCategory row) }
    {
        for run in runs {
            // Reading each category lets the proof use its range.
            let _ = category_of_cell(run.0);
        }
        let kept = Vec::from_slice(alloc, runs)?;
        Ok(Row {
            kept: RowForm::Runs(kept),
        })
    }

    // Returns a view of the row in its stored form.
    pub(crate) fn view(&self) -> RowView<'_>
        ensures { result ≡ self.now }
    {
        match &self.kept {
            RowForm::Runs(runs) => RowView::of_runs(runs),
            RowForm::Bytes(bytes) => RowView::of_bytes(bytes),
            RowForm::Cells(cells) => RowView::of_cells(cells),
        }
    }
}
