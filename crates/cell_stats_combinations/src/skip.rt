//! Which combinations a table leaves out.

ghost use Rattle.std.specs.Prelude.{◌≡◌};
ghost use Rattle.std.specs.List.{list_any, list_all};
ghost use Rattle.std.specs.Option.{is_none};
ghost use Rattle.cell_stats_combinations.specs.LeftOut.{combination_is_left_out};

use cell_core::cell::Cell;

/// Which combinations a table leaves out (r.stats manual, flags `-n` and `-N`).
#[derive(Clone, Copy, Debug, PartialEq, Eq)]
pub enum Skip {
    /// Leave out nothing.
    Nothing,
    /// Leave out combinations that contain null.
    AnyNull,
    /// Leave out combinations in which all cells are null.
    AllNull,
}

// Returns whether a cell is null.
#[inline(always)]
fn is_null_cell(cell: &Cell) -> bool
    ensures { result ≡ is_none cell.now }
{
    cell.get().is_none()
}

// Returns whether any cell is null.
#[inline(always)]
fn has_null(cells: &[Cell]) -> bool
    ensures { result ≡ list_any is_none cells.now }
{
    cells.iter().any(|cell| is_null_cell(cell))
}

// Returns whether all cells are null.
#[inline(always)]
fn has_nulls_only(cells: &[Cell]) -> bool
    ensures { result ≡ list_all is_none cells.now }
{
    cells.iter().all(|cell| is_null_cell(cell))
}

/// Returns whether a combination is left out. Inlined, because it is called for each run.
#[inline(always)]
pub fn combination_is_left_out(skip: Skip, cells: &[Cell]) -> bool
    ensures { result ≡ combination_is_left_out skip cells.now }
{
    match skip {
        Skip::Nothing => false,
        Skip::AnyNull => has_null(cells),
        Skip::AllNull => has_nulls_only(cells),
    }
}
