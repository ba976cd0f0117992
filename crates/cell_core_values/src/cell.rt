//! Cells of a map.

ghost use Rattle.std.specs.Prelude.{◌≡◌, ℤ, negsuc, ◌≤ℤ◌, Option, MatchOption, IfSome};
ghost use Rattle.cell_core_values.specs.Cell.{cell_eq};

use std::cmp::Ordering;
use std::marker::Model;

/// A category from -2147483647 to 2147483647, or null (GRASS: a CELL value, where -2147483648 stands for null).
///
/// Cells are ordered by category, with null last (profile).
#[derive(Clone, Copy, Debug)]
pub struct Cell {
    pattern: i32,
}

impl Model for Cell {
    ghost use Rattle.std.specs.Prelude.{ℤ, Option};
    ghost use Rattle.cell_core_values.specs.Cell.{cell_of_stored_number, stored_number_of_cell};

    ghost Value = { Option ℤ };

    ghost view = { λ c. cell_of_stored_number c.pattern };

    ghost inverse = { λ v. record { pattern = stored_number_of_cell v } };
}

impl Cell {
    /// Returns the null cell.
    pub fn null() -> Cell
        ensures { result ≡ None }
    {
        Cell { pattern: i32::MIN }
    }

    /// Returns the cell of a category, or `None` for -2147483648, which is not a category.
    pub fn value(v: i32) -> Option<Cell>
        ensures { MatchOption result (v ≡ i32.MIN) (λ c. c ≡ Some v) }
    {
        if v == i32::MIN {
            None
        } else {
            Some(Cell { pattern: v })
        }
    }

    /// Returns the category, or `None` for null.
    pub fn get(self) -> Option<i32>
        ensures value { result ≡ self }
        ensures range { IfSome result (λ category. negsuc 2147483646 ≤ℤ category) }
    {
        if self.pattern == i32::MIN {
            None
        } else {
            Some(self.pattern)
        }
    }
}

// Returns whether both cells are null or have the same category.
fn is_same_cell(a: &Cell, b: &Cell) -> bool
    ensures { result ≡ cell_eq a.now b.now }
{
    a.pattern == b.pattern
}

impl PartialEq for Cell {
    ghost use Rattle.std.specs.Prelude.{◌≡◌, ◌↔◌, IsTrue};
    ghost use Rattle.cell_core_values.specs.Cell.{cell_eq, cell_cmp_total};
    ghost use Rattle.std.specs.Cmp.{partial_equiv_from_equiv, eq_by_cmp_equiv};

    ghost eq = { cell_eq };

    ghost laws = { partial_equiv_from_equiv (eq_by_cmp_equiv cell_cmp_total) };

    fn eq(&self, other: &Cell) -> bool
        ensures value { result ≡ cell_eq self.now other.now }
        ensures same { IsTrue result ↔ (self.now ≡ other.now) }
    {
        is_same_cell(self, other)
    }
}

impl Eq for Cell {
    ghost use Rattle.cell_core_values.specs.Cell.{cell_cmp_total};
    ghost use Rattle.std.specs.Cmp.{eq_by_cmp_equiv};

    ghost laws = { eq_by_cmp_equiv cell_cmp_total };
}

impl PartialOrd for Cell {
    ghost use Rattle.cell_core_values.specs.Cell.{compare_cells_null_last, cell_cmp_total};
    ghost use Rattle.std.specs.Ordering.{as_partial_cmp};
    ghost use Rattle.std.specs.Cmp.{po};
    ghost use Rattle.std.specs.Prelude.{refl};

    ghost partial_cmp = { as_partial_cmp compare_cells_null_last };

    ghost laws = { po cell_cmp_total (λ x y. refl) };

    fn partial_cmp(&self, other: &Cell) -> Option<Ordering> {
        Some(self.cmp(other))
    }
}

impl Ord for Cell {
    ghost use Rattle.std.specs.Prelude.{refl};
    ghost use Rattle.cell_core_values.specs.Cell.{compare_cells_null_last, cell_cmp_total};

    ghost cmp = { compare_cells_null_last };

    ghost total = { cell_cmp_total };

    ghost matches_partial_cmp = { λ x y. refl };

    ghost matches_eq = { λ x y. refl };

    fn cmp(&self, other: &Cell) -> Ordering {
        match (self.get(), other.get()) {
            (None, None) => Ordering::Equal,
            (None, Some(_)) => Ordering::Greater,
            (Some(_), None) => Ordering::Less,
            (Some(mine), Some(theirs)) => mine.cmp(&theirs),
        }
    }
}
