//! Reads a row in the form in which it is stored.

ghost use Rattle.std.specs.Prelude.{◌≡◌};
ghost use Rattle.std.specs.Iterator.{YieldsFirst, item_count};
ghost use Rattle.cell_core.specs.parts.RowForms.{single_cells_as_runs};
ghost use Rattle.cell_core_values.specs.SmallCells.{cells_of_bytes};

use cell_core_values::cell::Cell;
use cell_core_values::small_cells::cell_of_byte;
use std::marker::Model;

/// An iterator over the cells of a row, from left to right, as stretches: a cell and the number of times it is
/// repeated. The stretches of a row stored as runs are its runs. Other rows have one stretch per cell, so adjacent
/// stretches may have equal cells: if most runs are short, this is faster than finding their ends. In contracts, its
/// value is the list of remaining stretches.
#[derive(Drop)]
pub struct RunsOrCells<'a> {
    rest: RemainingRunsOrCells<'a>,
}

// The form in which the remaining stretches are stored.
#[derive(Drop)]
enum RemainingRunsOrCells<'a> {
    Runs(&'a [(Cell, u32)]),
    Bytes(&'a [u8]),
    Cells(&'a [Cell]),
}

impl<'a> Model for RunsOrCells<'a> {
    ghost use Rattle.std.specs.Prelude.{List};
    ghost use Rattle.cell_core.specs.Runs.{RunValue};
    ghost use Rattle.cell_core.specs.parts.RowForms.{runs_or_cells_left};

    ghost Value = { List RunValue };

    ghost view = { λ stretches. runs_or_cells_left stretches.rest };
}

impl<'a> RunsOrCells<'a> {
    // Returns an iterator over given runs.
    pub(crate) fn of_runs(runs: &'a [(Cell, u32)]) -> RunsOrCells<'a>
        ensures { result ≡ runs.now }
    {
        RunsOrCells {
            rest: RemainingRunsOrCells::Runs(runs),
        }
    }

    // Returns an iterator over cells stored as bytes, one stretch per cell.
    pub(crate) fn of_bytes(bytes: &'a [u8]) -> RunsOrCells<'a>
        ensures { result ≡ single_cells_as_runs (cells_of_bytes bytes.now) }
    {
        RunsOrCells {
            rest: RemainingRunsOrCells::Bytes(bytes),
        }
    }

    // Returns an iterator over cells, one stretch per cell.
    pub(crate) fn of_cells(cells: &'a [Cell]) -> RunsOrCells<'a>
        ensures { result ≡ single_cells_as_runs cells.now }
    {
        RunsOrCells {
            rest: RemainingRunsOrCells::Cells(cells),
        }
    }
}

impl<'a> Iterator for RunsOrCells<'a> {
    type Item = (Cell, u32);

    ghost next_gives = { YieldsFirst (λ s. s) };

    ghost remaining = { item_count (λ s. s) };

    #[inline]
    fn next(&mut self) -> Option<(Cell, u32)> {
        match &self.rest {
            RemainingRunsOrCells::Runs(runs) => {
                let (first, others) = runs.split_first()?;
                self.rest = RemainingRunsOrCells::Runs(others);
                Some(*first)
            }
            RemainingRunsOrCells::Bytes(bytes) => {
                let (first, others) = bytes.split_first()?;
                self.rest = RemainingRunsOrCells::Bytes(others);
                Some((cell_of_byte(*first), 1))
            }
            RemainingRunsOrCells::Cells(cells) => {
                let (first, others) = cells.split_first()?;
                self.rest = RemainingRunsOrCells::Cells(others);
                Some((*first, 1))
            }
        }
    }
}
