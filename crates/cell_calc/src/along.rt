//! Evaluates an expression along strips: step by step, with a stack of operands.

ghost use Rattle.std.specs.Prelude.{All, IfOk, OnOk};
ghost use Rattle.cell_calc.specs.parts.Operands.{IsStripInsideRegion, CanEvaluateStep, HasReadyOperandsForStrip, OperandIsResultOfStep, IsRowOfFunctionCall, AreRowsOfLastOperands, RowHasValuesAfterSteps};
ghost use Rattle.cell_calc_grammar.specs.Postfix.{arity_of_step, StepsHaveEnoughOperands};

use crate::calls::write_call_values;
use crate::operand::{
    pop_operand, reuse_or_allocate_row, row_of_operator_values, row_of_three_argument_if,
    writable_row_of_operand,
};
use crate::rows;
use crate::strip::{Operand, RowStrip, SpareRows};
use crate::window::RowWindow;
use cell_calc_grammar::function::Function;
use cell_calc_grammar::step::Step;
use cell_core::cell::Cell;
use cell_core::memory::Memory;
use std::alloc::Global;

/// Returns the values of an expression along a strip. The windows must be at the strip's row.
pub(crate) fn values_along_strip(
    alloc: Global,
    steps: &[Step<usize>],
    strip: &RowStrip,
    windows: &[RowWindow],
    operands: &mut Vec<Operand>,
    spare: &mut SpareRows,
) -> Result<Vec<Cell>, Memory>
    requires strip { IsStripInsideRegion strip.now }
    requires ready { All (CanEvaluateStep windows.now) steps.now }
    requires enough { StepsHaveEnoughOperands steps.now 0 }
    ensures { IfOk result (RowHasValuesAfterSteps strip.now windows.now steps.now) }
{
    operands.clear();
    for step in steps {
        let operand = step_result_on_last_operands(alloc, *step, operands, strip, windows, spare)?;
        operands.push(operand)?;
    }
    let last = pop_operand(operands);
    let row = writable_row_of_operand(alloc, last, strip, windows, &mut spare.free)?;
    Ok(row)
}

// Applies a step to the last operands and returns its result.
fn step_result_on_last_operands(
    alloc: Global,
    step: Step<usize>,
    operands: &mut Vec<Operand>,
    strip: &RowStrip,
    windows: &[RowWindow],
    spare: &mut SpareRows,
) -> Result<Operand, Memory>
    requires step { CanEvaluateStep windows.now step }
    requires operands { HasReadyOperandsForStrip strip.now windows.now
        (arity_of_step step) operands.old.items }
    ensures { IfOk result
        (OperandIsResultOfStep strip.now windows.now step operands.old.items operands.new.items) }
{
    match step {
        Step::Number(n) => Ok(Operand::Number(n)),
        Step::Map { leaf, down, right } => Ok(Operand::Map {
            place: leaf,
            down,
            right,
        }),
        Step::Negated => {
            let last = pop_operand(operands);
            let mut row = writable_row_of_operand(alloc, last, strip, windows, &mut spare.free)?;
            rows::negate_row_cells(row.as_mut_slice());
            Ok(Operand::Row(row))
        }
        Step::Not => {
            let last = pop_operand(operands);
            let mut row = writable_row_of_operand(alloc, last, strip, windows, &mut spare.free)?;
            rows::apply_not_to_row_cells(row.as_mut_slice());
            Ok(Operand::Row(row))
        }
        Step::Binary(operator) => {
            let right = pop_operand(operands);
            let left = pop_operand(operands);
            let row = row_of_operator_values(
                alloc,
                operator,
                left,
                right,
                strip,
                windows,
                &mut spare.free,
            )?;
            Ok(Operand::Row(row))
        }
        Step::Call(function, count) => {
            let row = call_result_on_last_operands(
                alloc, function, count, operands, strip, windows, spare,
            )?;
            Ok(Operand::Row(row))
        }
    }
}

// Applies a function to the last `count` operands and returns its values. A single argument is changed in place.
fn call_result_on_last_operands(
    alloc: Global,
    function: Function,
    count: usize,
    operands: &mut Vec<Operand>,
    strip: &RowStrip,
    windows: &[RowWindow],
    spare: &mut SpareRows,
) -> Result<Vec<Cell>, Memory>
    requires { HasReadyOperandsForStrip strip.now windows.now count operands.old.items }
    ensures { IfOk result (IsRowOfFunctionCall strip.now windows.now function count
        operands.old.items
        operands.new.items) }
{
    match (function, count) {
        (Function::If, 1) => {
            let last = pop_operand(operands);
            let mut row = writable_row_of_operand(alloc, last, strip, windows, &mut spare.free)?;
            rows::replace_nonzero_cells_by_one(row.as_mut_slice());
            Ok(row)
        }
        (Function::IsNull, 1) => {
            let last = pop_operand(operands);
            let mut row = writable_row_of_operand(alloc, last, strip, windows, &mut spare.free)?;
            rows::write_null_flags(row.as_mut_slice());
            Ok(row)
        }
        (Function::Abs, 1) => {
            let last = pop_operand(operands);
            let mut row = writable_row_of_operand(alloc, last, strip, windows, &mut spare.free)?;
            rows::write_absolute_values(row.as_mut_slice());
            Ok(row)
        }
        (Function::If, 3) => {
            let no = pop_operand(operands);
            let yes = pop_operand(operands);
            let condition = pop_operand(operands);
            row_of_three_argument_if(alloc, condition, yes, no, strip, windows, &mut spare.free)
        }
        _ => call_result_by_argument_rows(alloc, function, count, operands, strip, windows, spare),
    }
}

// Like `call_result_on_last_operands`, for functions that need a row per argument.
fn call_result_by_argument_rows(
    alloc: Global,
    function: Function,
    count: usize,
    operands: &mut Vec<Operand>,
    strip: &RowStrip,
    windows: &[RowWindow],
    spare: &mut SpareRows,
) -> Result<Vec<Cell>, Memory>
    requires { HasReadyOperandsForStrip strip.now windows.now count operands.old.items }
    ensures { IfOk result (IsRowOfFunctionCall strip.now windows.now function count
        operands.old.items
        operands.new.items) }
{
    move_operands_to_argument_rows(alloc, count, operands, strip, windows, spare)?;
    let (region, number, from) = (strip.region, strip.row, strip.from);
    let mut row = reuse_or_allocate_row(alloc, strip.width, &mut spare.free)?;
    let arguments = spare.arguments.as_slice();
    let cells = row.as_mut_slice();
    write_call_values(alloc, function, region, number, from, arguments, cells)?;
    spare.free.append(&mut spare.arguments)?;
    Ok(row)
}

// Moves the last `count` operands into rows that hold the arguments of a call.
fn move_operands_to_argument_rows(
    alloc: Global,
    count: usize,
    operands: &mut Vec<Operand>,
    strip: &RowStrip,
    windows: &[RowWindow],
    spare: &mut SpareRows,
) -> Result<(), Memory>
    requires { HasReadyOperandsForStrip strip.now windows.now count operands.old.items }
    ensures { OnOk result (AreRowsOfLastOperands strip.now windows.now count operands.old.items
        operands.new.items spare.new.arguments.items) }
{
    spare.arguments.clear();
    'operands: for _ in 0..count {
        let last = pop_operand(operands);
        let row = writable_row_of_operand(alloc, last, strip, windows, &mut spare.free)?;
        spare.arguments.push(row)?;
    }
    // The last argument was popped first.
    spare.arguments.reverse();
    Ok(())
}
