//! Combinations: one cell from each of several maps.

ghost use Rattle.std.specs.Prelude.{◌≡◌, ◌<◌, ◌↔◌, IfOk, IsTrue, Some, length, slice_get, take};
ghost use Rattle.cell_stats_combinations.specs.Combinations.{combination_cmp};

use cell_core::cell::Cell;
use cell_core::memory::Memory;
use std::alloc::Global;
use std::cmp::Ordering;
use std::marker::Model;

// Maximum number of cells stored without an allocation.
const MIN_COMBINATIONS_FOR_RADIX_SORT: usize = 4;

// The cells of a combination: a few cells with their number, or many.
#[derive(Debug, Drop)]
enum Cells {
    Few([Cell; MIN_COMBINATIONS_FOR_RADIX_SORT], usize),
    Many(Vec<Cell>),
}

/// One cell from each of several maps, in the order in which the maps were picked. Combinations are ordered by their
/// first cell, then by their second, and so on (r.stats manual; null is last: profile).
#[derive(Debug, Drop)]
pub struct Combo {
    cells: Cells,
}

impl Model for Combo {
    ghost use Rattle.cell_stats_combinations.specs.Combinations.{Combination};

    ghost Value = { Combination };

    ghost use Rattle.cell_stats_combinations.specs.parts.Few.{cells_of_combination};

    ghost view = { λ combo. cells_of_combination combo.cells };
}

impl Combo {
    // Returns the combination of these cells.
    pub(crate) fn of(cells: Vec<Cell>) -> Combo
        ensures { result ≡ cells.items }
    {
        Combo {
            cells: Cells::Many(cells),
        }
    }

    /// Returns a combination with copies of these cells.
    ///
    /// # Errors
    ///
    /// `Memory` if memory runs out.
    pub fn from_cells(alloc: Global, cells: &[Cell]) -> Result<Combo, Memory>
        ensures { IfOk result (λ combo. combo ≡ cells.now) }
    {
        if cells.len() <= MIN_COMBINATIONS_FOR_RADIX_SORT {
            let mut few = [Cell::null(); MIN_COMBINATIONS_FOR_RADIX_SORT];
            few[..cells.len()].copy_from_slice(cells);
            return Ok(Combo {
                cells: Cells::Few(few, cells.len()),
            });
        }
        let many = Vec::from_slice(alloc, cells)?;
        Ok(Combo {
            cells: Cells::Many(many),
        })
    }

    /// Returns the combination of the first `width` of two cells. Needs no memory.
    #[inline(always)]
    pub fn of_first_cells_of_pair(cells: [Cell; 2], width: usize) -> Combo
        ensures { result ≡ take width cells }
    {
        let [first, second] = cells;
        let few = [first, second, Cell::null(), Cell::null()];
        Combo {
            cells: Cells::Few(few, width.min(2)),
        }
    }

    /// Returns the number of cells.
    pub fn len(&self) -> usize
        ensures { result ≡ length self.now }
    {
        self.cells().len()
    }

    /// Returns the cell of the map that was picked at index `i`.
    pub fn get(&self, i: usize) -> Cell
        requires { i < length self.now }
        ensures { slice_get self.now i ≡ Some result }
    {
        self.cells()[i]
    }

    /// Returns the cells in order.
    #[inline(always)]
    pub fn cells(&self) -> &[Cell]
        ensures { result.now ≡ self.now }
    {
        match &self.cells {
            Cells::Few(few, count) => &few[..(*count).min(MIN_COMBINATIONS_FOR_RADIX_SORT)],
            Cells::Many(many) => many,
        }
    }

    /// Overwrites the cells with an equal number of new cells.
    #[inline(always)]
    pub fn write(&mut self, cells: &[Cell])
        requires { length cells.now ≡ length self.old }
        ensures { self.new ≡ cells.now }
    {
        match &mut self.cells {
            Cells::Few(few, _) => few[..cells.len()].copy_from_slice(cells),
            Cells::Many(many) => many.as_mut_slice().copy_from_slice(cells),
        }
    }
}

impl PartialEq for Combo {
    ghost use Rattle.std.specs.Ordering.{eq_by_cmp};
    ghost use Rattle.std.specs.Cmp.{partial_equiv_from_equiv, eq_by_cmp_equiv};
    ghost use Rattle.cell_stats_combinations.specs.Combinations.{combination_cmp, combination_cmp_total};

    ghost eq = { eq_by_cmp combination_cmp };

    ghost laws = { partial_equiv_from_equiv (eq_by_cmp_equiv combination_cmp_total) };

    fn eq(&self, other: &Combo) -> bool {
        self.cmp(other) == Ordering::Equal
    }
}

impl Eq for Combo {
    ghost use Rattle.std.specs.Cmp.{eq_by_cmp_equiv};
    ghost use Rattle.cell_stats_combinations.specs.Combinations.{combination_cmp_total};

    ghost laws = { eq_by_cmp_equiv combination_cmp_total };
}

impl PartialOrd for Combo {
    ghost use Rattle.std.specs.Prelude.{refl};
    ghost use Rattle.std.specs.Ordering.{as_partial_cmp};
    ghost use Rattle.std.specs.Cmp.{po};
    ghost use Rattle.cell_stats_combinations.specs.Combinations.{combination_cmp, combination_cmp_total};

    ghost partial_cmp = { as_partial_cmp combination_cmp };

    ghost laws = { po combination_cmp_total (λ x y. refl) };

    fn partial_cmp(&self, other: &Combo) -> Option<Ordering> {
        Some(self.cmp(other))
    }
}

impl Ord for Combo {
    ghost use Rattle.std.specs.Prelude.{refl};
    ghost use Rattle.cell_stats_combinations.specs.Combinations.{combination_cmp, combination_cmp_total};

    ghost cmp = { combination_cmp };

    ghost total = { combination_cmp_total };

    ghost matches_partial_cmp = { λ x y. refl };

    ghost matches_eq = { λ x y. refl };

    #[inline(always)]
    fn cmp(&self, other: &Combo) -> Ordering {
        self.cells().cmp(other.cells())
    }
}
