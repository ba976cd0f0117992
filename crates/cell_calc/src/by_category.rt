//! Expressions whose value depends only on the category of one cell.

ghost use Rattle.std.specs.Prelude.{◌≡◌, ◌≤◌, length, map, IfOk, true};
ghost use Rattle.cell_calc.specs.ByCategory.{StepDependsOnlyOnCategory, DependsOnlyOnCategory, formula_value_for_first_map_cell};

use crate::rows_of_values::values_along_first_columns;
use crate::window::RowWindow;
use cell_calc_grammar::function::Function;
use cell_calc_grammar::step::Step;
use cell_calc_language::bound::Bound;
use cell_core::cell::Cell;
use cell_core::memory::Memory;
use cell_core::region::Region;
use std::alloc::Global;

// Looking up a value costs about as much as this many steps.
const LOOKUP_COST_IN_STEPS: usize = 4;

// Returns whether a step reads at most the first map, at the cell itself, and does not use the cell's position.
fn step_depends_only_on_category(step: Step<usize>) -> bool
    ensures { result ≡ true → StepDependsOnlyOnCategory step }
{
    match step {
        Step::Map { leaf, down, right } => leaf == 0 && down == 0 && right == 0,
        Step::Call(Function::Row, _) => false,
        Step::Call(Function::Column, _) => false,
        _ => true,
    }
}

/// Returns whether an expression's value depends only on the category of one cell, and computing it takes longer than
/// looking it up.
pub fn is_faster_by_category_lookup(bound: &Bound) -> bool
    ensures { result ≡ true → DependsOnlyOnCategory bound.now }
{
    let steps = bound.steps();
    for step in steps {
        if !step_depends_only_on_category(*step) {
            return false;
        }
    }
    steps.len() >= LOOKUP_COST_IN_STEPS
}

/// Returns the values of an expression for cells of its first map.
///
/// # Errors
///
/// [`Memory`] if memory runs out.
pub fn expression_values_for_cells(
    alloc: Global,
    bound: &Bound,
    region: Region,
    cells: Vec<Cell>,
) -> Result<Vec<Cell>, Memory>
    requires by_category { DependsOnlyOnCategory bound.now }
    requires width { length cells.items ≤ region.cols }
    ensures { IfOk result
        (λ values. values.items ≡ map (formula_value_for_first_map_cell region bound.now)
        cells.items) }
{
    let (_rows, _cols) = (region.rows(), region.cols());
    let width = cells.len();
    let window = RowWindow::of_row(alloc, cells)?;
    let windows = vec![in alloc; window]?;
    let values = values_along_first_columns(
        alloc,
        bound.steps(),
        region,
        0,
        width,
        windows.as_slice(),
    )?;
    Ok(values)
}
