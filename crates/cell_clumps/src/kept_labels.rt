//! Stores the labels of a row and replaces them with numbers.

ghost use Rattle.std.specs.Prelude.{◌≡◌, ◌<◌, All, IfOk, length, map};
ghost use Rattle.cell_clumps.specs.parts.RunsOfLabels.{labels_of_cells_in_runs, clump_number_cell_of_label, clump_numbers_of_cells_in_runs};

use crate::near::{LABEL_OF_NULL, LabelledCell};
use cell_core::cell::Cell;
use cell_core::memory::Memory;
use cell_core::runs::write_run_to_cells;
use std::alloc::Global;
use std::marker::Model;

// The labels of a row's cells, from left to right.
#[derive(Debug, Drop)]
pub(crate) struct RowClumpLabels {
    kept: RowLabelStorage,
}

// The labels of a row: runs of equal labels with their lengths, or one label per cell, which takes less memory if most
// runs are short.
#[derive(Debug, Drop)]
enum RowLabelStorage {
    Runs(Vec<(u32, u32)>),
    Cells(Vec<u32>),
}

impl Model for RowClumpLabels {
    ghost use Rattle.std.specs.Prelude.{ℕ, List};
    ghost use Rattle.cell_clumps.specs.parts.LabelForms.{labels_of_stored_row};

    ghost Value = { List ℕ };

    ghost view = { λ row. labels_of_stored_row row.kept };
}

impl RowClumpLabels {
    // Stores labels given as runs.
    pub(crate) fn of_runs(runs: Vec<(u32, u32)>) -> RowClumpLabels
        ensures { result ≡ labels_of_cells_in_runs runs.items }
    {
        RowClumpLabels {
            kept: RowLabelStorage::Runs(runs),
        }
    }

    // Stores one label per cell of a row.
    pub(crate) fn store_labels_of_cells(
        alloc: Global,
        line: &[LabelledCell],
    ) -> Result<RowClumpLabels, Memory>
        ensures { IfOk result (λ labels. labels ≡ map (λ x. x.label) line.now) }
    {
        let mut labels = vec![in alloc; LABEL_OF_NULL; line.len()]?;
        copy_clump_labels_of_row(line, labels.as_mut_slice());
        Ok(RowClumpLabels {
            kept: RowLabelStorage::Cells(labels),
        })
    }

    // Writes the numbers of a row's cells and frees its labels. The table maps each label to its number; null's label
    // is not in it.
    pub(crate) fn write_clump_numbers_of_row(self, table: &[u32], cells: &mut [Cell])
        requires small { All (λ number. number < 2147483648) table.now }
        requires wide { length self ≡ length cells.old }
        ensures { cells.new ≡ map (clump_number_cell_of_label table.now) self }
    {
        match &self.kept {
            RowLabelStorage::Runs(runs) => write_clump_numbers_of_runs(runs, table, cells),
            RowLabelStorage::Cells(labels) => write_clump_numbers_of_cells(labels, table, cells),
        }
    }
}

// Copies the labels of a row into a slice of the same length.
fn copy_clump_labels_of_row(line: &[LabelledCell], labels: &mut [u32])
    requires { length labels.old ≡ length line.now }
    ensures { labels.new ≡ map (λ x. x.label) line.now }
{
    for i in 0..labels.len() {
        labels[i] = line[i].label;
    }
}

// Returns the number of a label, or null if the table does not contain the label.
fn clump_number_of_label(table: &[u32], label: u32) -> Cell
    requires { All (λ number. number < 2147483648) table.now }
    ensures { result ≡ clump_number_cell_of_label table.now label }
{
    match table.get(label as usize) {
        Some(number) => Cell::value(*number as i32).unwrap_or(Cell::null()),
        None => Cell::null(),
    }
}

// Writes the number of each run's label to all cells of the run.
#[inline(never)]
fn write_clump_numbers_of_runs(runs: &[(u32, u32)], table: &[u32], cells: &mut [Cell])
    requires small { All (λ number. number < 2147483648) table.now }
    requires wide { length (clump_numbers_of_cells_in_runs table.now runs.now) ≡ length cells.old }
    ensures { cells.new ≡ clump_numbers_of_cells_in_runs table.now runs.now }
{
    let mut at = 0;
    for run in runs {
        write_run_to_cells(cells, at, (clump_number_of_label(table, run.0), run.1));
        at += run.1 as usize;
    }
}

// Writes the number of each label into a slice of the same length.
#[inline(never)]
fn write_clump_numbers_of_cells(labels: &[u32], table: &[u32], cells: &mut [Cell])
    requires small { All (λ number. number < 2147483648) table.now }
    requires wide { length labels.now ≡ length cells.old }
    ensures { cells.new ≡ map (clump_number_cell_of_label table.now) labels.now }
{
    for i in 0..cells.len() {
        cells[i] = clump_number_of_label(table, labels[i]);
    }
}
