//! Operands of the steps of an expression, along strips.

ghost use Rattle.std.specs.Prelude.{◌≡◌, ◌<◌, ◌++◌, [], ◌∷◌, length, slice_get, IfOk, OnOk};
ghost use Rattle.cell_calc_language.specs.Applied.{operator_value};
ghost use Rattle.cell_calc_language.specs.CellOperators.{cell_chosen_by_condition};
ghost use Rattle.cell_calc.specs.parts.Operands.{IsStripInsideRegion, CanReadOperand, HoldsAtEachStripColumn, operand_cell_in_strip_column, RowHasCellsAlongStrip};
ghost use Rattle.cell_calc.specs.WindowsOver.{row_below_window_centre};
ghost use Rattle.cell_calc.specs.parts.InReach.{SomeWindowReachesOffset};
ghost use Rattle.cell_calc.specs.RowValues.{at, RowHoldsCellAtEachColumn};

use crate::rows;
use crate::strip::{Operand, RowStrip};
use crate::window::RowWindow;
use cell_calc_grammar::operator::Operator;
use cell_calc_language::cell_operators;
use cell_core::cell::Cell;
use cell_core::memory::Memory;
use std::alloc::Global;

/// Removes and returns the last operand.
pub(crate) fn pop_operand(operands: &mut Vec<Operand>) -> Operand
    requires { 0 < length operands.old.items }
    ensures { operands.old.items ≡ operands.new.items ++ result ∷ [] }
{
    operands.pop().unwrap()
}

/// Returns a row of `width` cells with unspecified contents: a free row if there is one, otherwise a new one.
#[inline(never)]
pub(crate) fn reuse_or_allocate_row(
    alloc: Global,
    width: usize,
    free: &mut Vec<Vec<Cell>>,
) -> Result<Vec<Cell>, Memory>
    ensures { IfOk result (λ row. length row.items ≡ width) }
{
    if let Some(mut row) = free.pop() {
        if width <= row.len() {
            row.truncate(width);
            return Ok(row);
        }
    }
    Ok(Vec::from_elem(alloc, Cell::null(), width)?)
}

// Returns the row `down` rows below the centre of the window at index `place`.
fn row_below_centre_of_window<'a>(windows: &'a [RowWindow], place: usize, down: i32) -> &'a [Cell]
    requires { SomeWindowReachesOffset down (slice_get windows.now place) }
    ensures { result.now ≡ row_below_window_centre down (slice_get windows.now place) }
{
    windows[place].row(down)
}

/// Returns the cells of an operand in a row that may be overwritten.
///
/// It is inlined because most operands of operators are rows, which are only passed on.
#[inline(always)]
pub(crate) fn writable_row_of_operand(
    alloc: Global,
    operand: Operand,
    strip: &RowStrip,
    windows: &[RowWindow],
    free: &mut Vec<Vec<Cell>>,
) -> Result<Vec<Cell>, Memory>
    requires strip { IsStripInsideRegion strip.now }
    requires ready { CanReadOperand windows.now strip.now operand }
    ensures { IfOk result (RowHasCellsAlongStrip strip.now
        (λ c. operand_cell_in_strip_column windows.now strip.now c operand)) }
{
    let (from, width) = (strip.from, strip.width);
    match operand {
        Operand::Row(row) => Ok(row),
        Operand::Number(n) => {
            let mut row = reuse_or_allocate_row(alloc, width, free)?;
            rows::fill_row_with_cell(row.as_mut_slice(), cell_operators::number(n));
            Ok(row)
        }
        Operand::Map { place, down, right } => {
            let mut row = reuse_or_allocate_row(alloc, width, free)?;
            let source = row_below_centre_of_window(windows, place, down);
            rows::copy_shifted_cells(source, from, right, row.as_mut_slice());
            Ok(row)
        }
    }
}

/// Returns the values of an operator in a row that may be overwritten.
pub(crate) fn row_of_operator_values(
    alloc: Global,
    operator: Operator,
    left: Operand,
    right: Operand,
    strip: &RowStrip,
    windows: &[RowWindow],
    free: &mut Vec<Vec<Cell>>,
) -> Result<Vec<Cell>, Memory>
    requires strip { IsStripInsideRegion strip.now }
    requires left { CanReadOperand windows.now strip.now left }
    requires right { CanReadOperand windows.now strip.now right }
    ensures { IfOk result (RowHasCellsAlongStrip strip.now
        (λ c. operator_value operator (operand_cell_in_strip_column windows.now strip.now c left)
        (operand_cell_in_strip_column windows.now strip.now c right))) }
{
    let mut row = writable_row_of_operand(alloc, left, strip, windows, free)?;
    apply_operator_to_row_and_operand(operator, right, strip, windows, row.as_mut_slice(), free)?;
    Ok(row)
}

// Applies an operator to a row, whose cells are the left operands. A right operand that is a number or part of a map's
// row needs no row of its own; the row of any other right operand becomes free.
fn apply_operator_to_row_and_operand(
    operator: Operator,
    right: Operand,
    strip: &RowStrip,
    windows: &[RowWindow],
    row: &mut [Cell],
    free: &mut Vec<Vec<Cell>>,
) -> Result<(), Memory>
    requires strip { IsStripInsideRegion strip.now }
    requires right { CanReadOperand windows.now strip.now right }
    requires width { length row.old ≡ strip.now.width }
    ensures { OnOk result (HoldsAtEachStripColumn strip.now (λ c. at row.new c
        ≡ operator_value operator (at row.old c)
        (operand_cell_in_strip_column windows.now strip.now c right))) }
{
    let from = strip.from;
    match right {
        Operand::Number(n) => {
            rows::apply_operator_with_cell(operator, row, cell_operators::number(n));
            Ok(())
        }
        Operand::Map { place, down, right } => {
            let source = row_below_centre_of_window(windows, place, down);
            rows::apply_operator_to_shifted_row(operator, row, source, right, from);
            Ok(())
        }
        Operand::Row(others) => {
            rows::apply_operator_to_rows(operator, row, others.as_slice());
            free.push(others)?;
            Ok(())
        }
    }
}

/// Returns the values of `if` with three arguments. If the first choice is a number or part of a map's row, it needs no
/// row of its own.
pub(crate) fn row_of_three_argument_if(
    alloc: Global,
    condition: Operand,
    yes: Operand,
    no: Operand,
    strip: &RowStrip,
    windows: &[RowWindow],
    free: &mut Vec<Vec<Cell>>,
) -> Result<Vec<Cell>, Memory>
    requires strip { IsStripInsideRegion strip.now }
    requires condition { CanReadOperand windows.now strip.now condition }
    requires yes { CanReadOperand windows.now strip.now yes }
    requires no { CanReadOperand windows.now strip.now no }
    ensures { IfOk result (RowHasCellsAlongStrip strip.now
        (λ c. cell_chosen_by_condition (operand_cell_in_strip_column windows.now strip.now c
        condition)
        (operand_cell_in_strip_column windows.now strip.now c yes)
        (operand_cell_in_strip_column windows.now strip.now c no))) }
{
    let mut row = writable_row_of_operand(alloc, no, strip, windows, free)?;
    let conditions = writable_row_of_operand(alloc, condition, strip, windows, free)?;
    let others = conditions.as_slice();
    copy_operand_where_true(alloc, yes, strip, windows, others, row.as_mut_slice(), free)?;
    free.push(conditions)?;
    Ok(row)
}

// Copies the cells of an operand into a row where the conditions hold.
fn copy_operand_where_true(
    alloc: Global,
    yes: Operand,
    strip: &RowStrip,
    windows: &[RowWindow],
    conditions: &[Cell],
    row: &mut [Cell],
    free: &mut Vec<Vec<Cell>>,
) -> Result<(), Memory>
    requires strip { IsStripInsideRegion strip.now }
    requires yes { CanReadOperand windows.now strip.now yes }
    requires width { length row.old ≡ strip.now.width }
    requires conditions { length conditions.now ≡ strip.now.width }
    ensures { OnOk result (HoldsAtEachStripColumn strip.now (λ c. at row.new c
        ≡ cell_chosen_by_condition (at conditions.now c)
        (operand_cell_in_strip_column windows.now strip.now c yes) (at row.old c))) }
{
    let (from, width) = (strip.from, strip.width);
    match yes {
        Operand::Number(n) => {
            rows::replace_with_cell_where_true(row, conditions, cell_operators::number(n));
            Ok(())
        }
        Operand::Map { place, down, right } => {
            let source = row_below_centre_of_window(windows, place, down);
            if let Some(part) = rows::shifted_strip_inside_row(source, from, right, width) {
                rows::replace_cells_where_true(row, conditions, part);
                return Ok(());
            }
            let over_the_edge = Operand::Map { place, down, right };
            let others = writable_row_of_operand(alloc, over_the_edge, strip, windows, free)?;
            copy_row_where_true(others, conditions, row, free)
        }
        Operand::Row(others) => copy_row_where_true(others, conditions, row, free),
    }
}

// Copies the cells of another row into a row where the conditions hold. The other row becomes free.
fn copy_row_where_true(
    others: Vec<Cell>,
    conditions: &[Cell],
    row: &mut [Cell],
    free: &mut Vec<Vec<Cell>>,
) -> Result<(), Memory>
    requires width { length others.items ≡ length row.old }
    requires conditions { length conditions.now ≡ length row.old }
    ensures { RowHoldsCellAtEachColumn row.old row.new
        (λ c. cell_chosen_by_condition (at conditions.now c) (at others.items c) (at row.old c)) }
{
    rows::replace_cells_where_true(row, conditions, others.as_slice());
    free.push(others)?;
    Ok(())
}
