//! Applies functions to rows of arguments.

ghost use Rattle.std.specs.Prelude.{◌≡◌, ◌≤◌, ◌<◌, ◌+◌, length, OnOk};
ghost use Rattle.cell_calc_language.specs.CellOperators.{if_call_value, least, greatest_cell, non_null_cells, first_argument_cell, last_argument_cell, cell_of_truth_value, is_null};
ghost use Rattle.cell_calc_language.specs.Applied.{grid_position, absolute_value_of_cell, call_result};
ghost use Rattle.cell_calc.specs.RowValues.{RowHoldsCellAtEachColumn, AreRowsOfWidth, argument_cells_at_column};

use crate::rows;
use cell_calc_grammar::function::Function;
use cell_calc_language::cell_operators;
use cell_calc_modes::modes;
use cell_core::cell::Cell;
use cell_core::memory::Memory;
use cell_core::region::Region;
use std::alloc::Global;

fn write_if_call_values(arguments: &[Vec<Cell>], row: &mut [Cell])
    requires { AreRowsOfWidth (length row.old) arguments.now }
    ensures { RowHoldsCellAtEachColumn row.old row.new
        (λ c. if_call_value (argument_cells_at_column c arguments.now)) }
{
    match arguments {
        [x] => {
            row.copy_from_slice(x.as_slice());
            rows::replace_nonzero_cells_by_one(row);
        }
        [x, a] => {
            row.copy_from_slice(x.as_slice());
            rows::choose_other_cells_or_zero(row, a.as_slice());
        }
        [x, a, b] => {
            row.copy_from_slice(b.as_slice());
            rows::replace_cells_where_true(row, x.as_slice(), a.as_slice());
        }
        _ => rows::fill_row_with_cell(row, Cell::null()),
    }
}

fn least(arguments: &[Vec<Cell>], row: &mut [Cell])
    requires { AreRowsOfWidth (length row.old) arguments.now }
    ensures { RowHoldsCellAtEachColumn row.old row.new
        (λ c. least (argument_cells_at_column c arguments.now)) }
{
    let [first, others @ ..] = arguments else {
        rows::fill_row_with_cell(row, Cell::null());
        return;
    };
    row.copy_from_slice(first.as_slice());
    for other in others {
        rows::lesser(row, other.as_slice());
    }
}

fn write_greatest_of_arguments(arguments: &[Vec<Cell>], row: &mut [Cell])
    requires { AreRowsOfWidth (length row.old) arguments.now }
    ensures { RowHoldsCellAtEachColumn row.old row.new
        (λ c. greatest_cell (argument_cells_at_column c arguments.now)) }
{
    let [first, others @ ..] = arguments else {
        rows::fill_row_with_cell(row, Cell::null());
        return;
    };
    row.copy_from_slice(first.as_slice());
    for other in others {
        rows::replace_by_larger_cells(row, other.as_slice());
    }
}

fn write_least_non_null_arguments(arguments: &[Vec<Cell>], row: &mut [Cell])
    requires { AreRowsOfWidth (length row.old) arguments.now }
    ensures { RowHoldsCellAtEachColumn row.old row.new
        (λ c. least (non_null_cells (argument_cells_at_column c arguments.now))) }
{
    rows::fill_row_with_cell(row, Cell::null());
    for other in arguments {
        rows::known_lesser(row, other.as_slice());
    }
}

fn write_greatest_non_null_arguments(arguments: &[Vec<Cell>], row: &mut [Cell])
    requires { AreRowsOfWidth (length row.old) arguments.now }
    ensures { RowHoldsCellAtEachColumn row.old row.new
        (λ c. greatest_cell (non_null_cells (argument_cells_at_column c arguments.now))) }
{
    rows::fill_row_with_cell(row, Cell::null());
    for other in arguments {
        rows::replace_by_larger_ignoring_null(row, other.as_slice());
    }
}

fn copy_last_argument(arguments: &[Vec<Cell>], row: &mut [Cell])
    requires { AreRowsOfWidth (length row.old) arguments.now }
    ensures { RowHoldsCellAtEachColumn row.old row.new
        (λ c. last_argument_cell (argument_cells_at_column c arguments.now)) }
{
    match arguments {
        [.., x] => row.copy_from_slice(x.as_slice()),
        [] => rows::fill_row_with_cell(row, Cell::null()),
    }
}

fn copy_first_argument(arguments: &[Vec<Cell>], row: &mut [Cell])
    requires { AreRowsOfWidth (length row.old) arguments.now }
    ensures { RowHoldsCellAtEachColumn row.old row.new
        (λ c. first_argument_cell (argument_cells_at_column c arguments.now)) }
{
    match arguments {
        [x, ..] => row.copy_from_slice(x.as_slice()),
        [] => rows::fill_row_with_cell(row, Cell::null()),
    }
}

fn write_null_flags(arguments: &[Vec<Cell>], row: &mut [Cell])
    requires { AreRowsOfWidth (length row.old) arguments.now }
    ensures { RowHoldsCellAtEachColumn row.old row.new
        (λ c. cell_of_truth_value (is_null (first_argument_cell
        (argument_cells_at_column c arguments.now)))) }
{
    copy_first_argument(arguments, row);
    rows::write_null_flags(row);
}

fn write_absolute_values(arguments: &[Vec<Cell>], row: &mut [Cell])
    requires { AreRowsOfWidth (length row.old) arguments.now }
    ensures { RowHoldsCellAtEachColumn row.old row.new
        (λ c. absolute_value_of_cell (first_argument_cell
        (argument_cells_at_column c arguments.now))) }
{
    copy_first_argument(arguments, row);
    rows::write_absolute_values(row);
}

/// Computes the values of a function along a strip from the values of its arguments.
pub fn write_call_values(
    alloc: Global,
    function: Function,
    region: Region,
    number: u32,
    from: usize,
    arguments: &[Vec<Cell>],
    row: &mut [Cell],
) -> Result<(), Memory>
    requires at_row { number < region.rows }
    requires width { from + length row.old ≤ region.cols }
    requires widths { AreRowsOfWidth (length row.old) arguments.now }
    ensures { OnOk result (RowHoldsCellAtEachColumn row.old row.new
        (λ c. call_result function (grid_position region number (from + c))
        (argument_cells_at_column c arguments.now))) }
{
    let (count, width) = (region.rows(), region.cols());
    match function {
        Function::If => write_if_call_values(arguments, row),
        Function::IsNull => write_null_flags(arguments, row),
        Function::Null => rows::fill_row_with_cell(row, Cell::null()),
        Function::Abs => write_absolute_values(arguments, row),
        Function::Min => least(arguments, row),
        Function::Max => write_greatest_of_arguments(arguments, row),
        Function::Mode => modes::mode(alloc, arguments, row)?,
        Function::Row => rows::fill_row_with_cell(row, cell_operators::number(number + 1)),
        Function::Column => rows::number(row, from),
        Function::RowCount => rows::fill_row_with_cell(row, cell_operators::number(count)),
        Function::ColumnCount => rows::fill_row_with_cell(row, cell_operators::number(width)),
        Function::Eval => copy_last_argument(arguments, row),
        Function::KnownMin => write_least_non_null_arguments(arguments, row),
        Function::KnownMax => write_greatest_non_null_arguments(arguments, row),
        Function::KnownMode => modes::write_modes_ignoring_null(alloc, arguments, row)?,
    }
    Ok(())
}
