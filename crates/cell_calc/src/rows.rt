//! Applies operators and functions to rows of cells.

ghost use Rattle.std.specs.Prelude.{◌≡◌, ◌≤◌, ◌<◌, ◌≤ℤ◌, ◌<ℤ◌, ℕ, pos, length, None, Some, IfSome, ◌+ℤ◌, ◌+◌};
ghost use Rattle.cell_calc_language.specs.CellOperators.{cell_chosen_by_condition, cell_of_truth_value, is_null, lesser, greater_than_as_cell};
ghost use Rattle.cell_calc_language.specs.Applied.{operator_value, absolute_value_of_cell, negated_cell, logical_negation_of_cell};
ghost use Rattle.cell_calc_language.specs.Offsets.{item_at_integer_or_default};
ghost use Rattle.cell_calc_language.specs.Joins.{known_lesser, greater_ignoring_null};
ghost use Rattle.cell_calc.specs.RowValues.{at, RowHoldsCellAtEachColumn};

use cell_calc_grammar::operator::Operator;
use cell_calc_language::cell_operators;
use cell_core::cell::Cell;

/// Writes a cell to every column of a row.
pub fn fill_row_with_cell(row: &mut [Cell], cell: Cell)
    ensures { RowHoldsCellAtEachColumn row.old row.new (λ c. cell) }
{
    for i in 0..row.len() {
        row[i] = cell;
    }
}

/// Applies a function to each cell of a row, in place.
pub(crate) fn each<F: Fn(Cell) -> Cell>(row: &mut [Cell], f: F)
    requires callable { F.IsAlwaysCallable f }
    ensures { (c : ℕ) → c < length row.old → F.post f (at row.old c) (at row.new c) }
{
    for i in 0..row.len() {
        row[i] = f(row[i]);
    }
}

/// Combines each cell of a row with the cell of another row in the same column, in place.
///
/// Callers pass named functions, because a closure would be proved anew at each use.
pub(crate) fn combine_rows<F: Fn(Cell, Cell) -> Cell>(row: &mut [Cell], other: &[Cell], f: F)
    requires callable { F.IsAlwaysCallable f }
    requires width { length other.now ≡ length row.old }
    ensures { (c : ℕ) → c < length row.old
        → F.post f (at row.old c) (at other.now c) (at row.new c) }
{
    for i in 0..row.len() {
        row[i] = f(row[i], other[i]);
    }
}

/// Combines each cell of a row with the same other cell, in place.
pub(crate) fn combine_row_with_cell<F: Fn(Cell, Cell) -> Cell>(row: &mut [Cell], other: Cell, f: F)
    requires callable { F.IsAlwaysCallable f }
    ensures { (c : ℕ) → c < length row.old → F.post f (at row.old c) other (at row.new c) }
{
    for i in 0..row.len() {
        row[i] = f(row[i], other);
    }
}

/// Replaces each cell with the cell of another row if its condition holds, and with null if its condition is null.
pub fn replace_cells_where_true(row: &mut [Cell], conditions: &[Cell], yes: &[Cell])
    requires width_conditions { length conditions.now ≡ length row.old }
    requires width_yes { length yes.now ≡ length row.old }
    ensures { RowHoldsCellAtEachColumn row.old row.new
        (λ c. cell_chosen_by_condition (at conditions.now c) (at yes.now c) (at row.old c)) }
{
    for i in 0..row.len() {
        row[i] = cell_operators::cell_chosen_by_condition(conditions[i], yes[i], row[i]);
    }
}

/// Like `replace_cells_where_true`, with a single cell in place of the other row.
pub fn replace_with_cell_where_true(row: &mut [Cell], conditions: &[Cell], yes: Cell)
    requires width { length conditions.now ≡ length row.old }
    ensures { RowHoldsCellAtEachColumn row.old row.new
        (λ c. cell_chosen_by_condition (at conditions.now c) yes (at row.old c)) }
{
    for i in 0..row.len() {
        row[i] = cell_operators::cell_chosen_by_condition(conditions[i], yes, row[i]);
    }
}

/// Writes the column numbers, counted from 1, of a strip that begins at column `from`, counted from 0.
pub(crate) fn number(row: &mut [Cell], from: usize)
    requires { from + length row.old ≤ 65535 }
    ensures { RowHoldsCellAtEachColumn row.old row.new (λ c. Some (pos (from + c + 1))) }
{
    for i in 0..row.len() {
        row[i] = cell_operators::number((from + i) as u32 + 1);
    }
}

/// Copies cells of a row, shifted to the left by `skip` columns.
fn copy_cells_shifted_left(source: &[Cell], skip: usize, row: &mut [Cell])
    requires { (c : ℕ) → c < length row.old → at row.old c ≡ None }
    ensures { RowHoldsCellAtEachColumn row.old row.new (λ c. at source.now (c + skip)) }
{
    if skip < source.len() {
        let count = (source.len() - skip).min(row.len());
        for i in 0..count {
            row[i] = source[i + skip];
        }
    }
}

/// Copies cells of a row, shifted to the right by `skip` columns.
fn copy_cells_shifted_right(source: &[Cell], skip: usize, row: &mut [Cell])
    requires { (c : ℕ) → c < length row.old → at row.old c ≡ None }
    ensures before { (c : ℕ) → c < skip → c < length row.old → at row.new c ≡ None }
    ensures each { (c : ℕ) → c + skip < length row.old → at row.new (c + skip) ≡ at source.now c }
{
    if skip < row.len() {
        let count = (row.len() - skip).min(source.len());
        for i in 0..count {
            row[i + skip] = source[i];
        }
    }
}

// Returns the column `right` columns to the right of `from`. A negative result is to the left of the row.
fn shifted_column(from: usize, right: i32) -> i64
    requires { from ≤ 65535 }
    ensures { result ≡ pos from +ℤ right }
{
    from as i64 + right as i64
}

/// Returns the part of a row that is `right` columns to the right of a strip, if all of it is inside the row.
pub fn shifted_strip_inside_row<'a>(
    source: &'a [Cell],
    from: usize,
    right: i32,
    width: usize,
) -> Option<&'a [Cell]>
    requires { from ≤ 65535 }
    ensures width { IfSome result (λ part. length part.now ≡ width) }
    ensures each { IfSome result (λ part. (c : ℕ) → c < width
        → at part.now c ≡ item_at_integer_or_default None source.now (pos (from + c) +ℤ right)) }
{
    let skip = shifted_column(from, right);
    if skip < 0 {
        return None;
    }
    let first = skip as usize;
    if source.len() < first || source.len() - first < width {
        return None;
    }
    Some(&source[first..first + width])
}

/// Copies the cells of a row that are `right` columns to the right of a strip beginning at `from`. Cells outside the
/// row are null.
pub fn copy_shifted_cells(source: &[Cell], from: usize, right: i32, row: &mut [Cell])
    requires { from ≤ 65535 }
    ensures { RowHoldsCellAtEachColumn row.old row.new
        (λ c. item_at_integer_or_default None source.now (pos (from + c) +ℤ right)) }
{
    match shifted_strip_inside_row(source, from, right, row.len()) {
        Some(part) => row.copy_from_slice(part),
        None => copy_shifted_cells_or_null(source, from, right, row),
    }
}

// Like `copy_shifted_cells`, for strips that are partly or fully outside the row.
fn copy_shifted_cells_or_null(source: &[Cell], from: usize, right: i32, row: &mut [Cell])
    requires { from ≤ 65535 }
    ensures { RowHoldsCellAtEachColumn row.old row.new
        (λ c. item_at_integer_or_default None source.now (pos (from + c) +ℤ right)) }
{
    fill_row_with_cell(row, Cell::null());
    let skip = shifted_column(from, right);
    if skip >= 0 {
        copy_cells_shifted_left(source, skip as usize, row);
    } else {
        copy_cells_shifted_right(source, -skip as usize, row);
    }
}

/// Applies `isnull` to each cell of a row, in place.
pub fn write_null_flags(row: &mut [Cell])
    ensures { RowHoldsCellAtEachColumn row.old row.new
        (λ c. cell_of_truth_value (is_null (at row.old c))) }
{
    each(row, cell_operators::null_flag_of_cell);
}

/// Applies `abs` to each cell of a row, in place.
pub fn write_absolute_values(row: &mut [Cell])
    ensures { RowHoldsCellAtEachColumn row.old row.new
        (λ c. absolute_value_of_cell (at row.old c)) }
{
    each(row, cell_operators::cell_absolute_value);
}

/// Applies unary `-` to each cell of a row, in place.
pub fn negate_row_cells(row: &mut [Cell])
    ensures { RowHoldsCellAtEachColumn row.old row.new (λ c. negated_cell (at row.old c)) }
{
    each(row, cell_operators::negated_cell);
}

/// Applies `!` to each cell of a row, in place.
pub fn apply_not_to_row_cells(row: &mut [Cell])
    ensures { RowHoldsCellAtEachColumn row.old row.new
        (λ c. logical_negation_of_cell (at row.old c)) }
{
    each(row, cell_operators::logical_negation_of_cell);
}

/// Applies `if(a)` to each cell of a row, in place: 0 becomes 0, null stays null, and other numbers become 1.
pub fn replace_nonzero_cells_by_one(row: &mut [Cell])
    ensures { RowHoldsCellAtEachColumn row.old row.new
        (λ c. cell_chosen_by_condition (at row.old c) (Some (pos 1)) (Some (pos 0))) }
{
    let (yes, no) = (
        cell_operators::cell_of_truth_value(true),
        cell_operators::cell_of_truth_value(false),
    );
    for i in 0..row.len() {
        row[i] = cell_operators::cell_chosen_by_condition(row[i], yes, no);
    }
}

pub(crate) fn lesser(row: &mut [Cell], other: &[Cell])
    requires width { length other.now ≡ length row.old }
    ensures { RowHoldsCellAtEachColumn row.old row.new
        (λ c. lesser (at row.old c) (at other.now c)) }
{
    combine_rows(row, other, cell_operators::lesser);
}

pub(crate) fn replace_by_larger_cells(row: &mut [Cell], other: &[Cell])
    requires width { length other.now ≡ length row.old }
    ensures { RowHoldsCellAtEachColumn row.old row.new (λ c. greater_than_as_cell (at row.old c)
        (at other.now c)) }
{
    combine_rows(row, other, cell_operators::larger);
}

pub(crate) fn known_lesser(row: &mut [Cell], other: &[Cell])
    requires width { length other.now ≡ length row.old }
    ensures { RowHoldsCellAtEachColumn row.old row.new (λ c. known_lesser (at row.old c)
        (at other.now c)) }
{
    combine_rows(row, other, cell_operators::known_lesser);
}

pub(crate) fn replace_by_larger_ignoring_null(row: &mut [Cell], other: &[Cell])
    requires width { length other.now ≡ length row.old }
    ensures { RowHoldsCellAtEachColumn row.old row.new (λ c. greater_ignoring_null (at row.old c)
        (at other.now c)) }
{
    combine_rows(row, other, cell_operators::known_larger);
}

pub(crate) fn choose_other_cells_or_zero(row: &mut [Cell], other: &[Cell])
    requires width { length other.now ≡ length row.old }
    ensures { RowHoldsCellAtEachColumn row.old row.new
        (λ c. cell_chosen_by_condition (at row.old c) (at other.now c) (Some (pos 0))) }
{
    let no = cell_operators::cell_of_truth_value(false);
    for i in 0..row.len() {
        row[i] = cell_operators::cell_chosen_by_condition(row[i], other[i], no);
    }
}

/// Applies an operator to a row in place. The row holds the left operands, and `other` the right ones.
pub fn apply_operator_to_rows(operator: Operator, row: &mut [Cell], other: &[Cell])
    requires width { length other.now ≡ length row.old }
    ensures { RowHoldsCellAtEachColumn row.old row.new
        (λ c. operator_value operator (at row.old c) (at other.now c)) }
{
    match operator {
        Operator::Times => combine_rows(row, other, cell_operators::product_of_two_cells),
        Operator::Divide => combine_rows(row, other, cell_operators::quotient_of_two_cells),
        Operator::Modulo => combine_rows(row, other, cell_operators::remainder_of_two_cells),
        Operator::Plus => combine_rows(row, other, cell_operators::sum),
        Operator::Minus => combine_rows(row, other, cell_operators::difference),
        Operator::Less => combine_rows(row, other, cell_operators::less_than_as_cell),
        Operator::LessEqual => combine_rows(row, other, cell_operators::less_or_equal_as_cell),
        Operator::Greater => combine_rows(row, other, cell_operators::greater_than_as_cell),
        Operator::GreaterEqual => combine_rows(
            row,
            other,
            cell_operators::greater_or_equal_as_cell,
        ),
        Operator::Equal => combine_rows(row, other, cell_operators::equal_as_cell),
        Operator::NotEqual => combine_rows(row, other, cell_operators::not_equal_as_cell),
        Operator::And => combine_rows(row, other, cell_operators::and_of_two_cells),
        Operator::Or => combine_rows(row, other, cell_operators::or_of_two_cells),
        Operator::KnownAnd => combine_rows(row, other, cell_operators::and_despite_null),
        Operator::KnownOr => combine_rows(row, other, cell_operators::or_despite_null),
    }
}

/// Applies an operator to a row in place. The row holds the left operands; the right operand is always `b`.
pub fn apply_operator_with_cell(operator: Operator, row: &mut [Cell], b: Cell)
    ensures { RowHoldsCellAtEachColumn row.old row.new
        (λ c. operator_value operator (at row.old c) b) }
{
    match operator {
        Operator::Times => combine_row_with_cell(row, b, cell_operators::product_of_two_cells),
        Operator::Divide => combine_row_with_cell(row, b, cell_operators::quotient_of_two_cells),
        Operator::Modulo => combine_row_with_cell(row, b, cell_operators::remainder_of_two_cells),
        Operator::Plus => combine_row_with_cell(row, b, cell_operators::sum),
        Operator::Minus => combine_row_with_cell(row, b, cell_operators::difference),
        Operator::Less => combine_row_with_cell(row, b, cell_operators::less_than_as_cell),
        Operator::LessEqual => combine_row_with_cell(row, b, cell_operators::less_or_equal_as_cell),
        Operator::Greater => combine_row_with_cell(row, b, cell_operators::greater_than_as_cell),
        Operator::GreaterEqual => combine_row_with_cell(
            row,
            b,
            cell_operators::greater_or_equal_as_cell,
        ),
        Operator::Equal => combine_row_with_cell(row, b, cell_operators::equal_as_cell),
        Operator::NotEqual => combine_row_with_cell(row, b, cell_operators::not_equal_as_cell),
        Operator::And => combine_row_with_cell(row, b, cell_operators::and_of_two_cells),
        Operator::Or => combine_row_with_cell(row, b, cell_operators::or_of_two_cells),
        Operator::KnownAnd => combine_row_with_cell(row, b, cell_operators::and_despite_null),
        Operator::KnownOr => combine_row_with_cell(row, b, cell_operators::or_despite_null),
    }
}

// How a row overlaps a strip: the first common cell of the row, the first common column of the strip, and the number of
// common cells.
#[derive(Clone, Copy)]
struct RowStripOverlap {
    first: usize,
    before: usize,
    count: usize,
}

// Returns the overlap of a row of `cells` cells, moved `right` columns to the left, with a strip of `width` columns
// that begins at `from`.
fn overlap_of_row_and_strip(cells: usize, right: i32, from: usize, width: usize) -> RowStripOverlap
    requires { from ≤ 65535 }
    ensures strip { result.before + result.count ≤ width }
    ensures row { result.first + result.count ≤ cells }
    ensures before { (c : ℕ) → c < result.before → (pos (from + c) +ℤ right) <ℤ pos 0 }
    ensures first { 0 < result.count → pos result.first ≡ pos (from + result.before) +ℤ right }
    ensures after { (c : ℕ) → result.before + result.count ≤ c → c < width
        → pos cells ≤ℤ (pos (from + c) +ℤ right) }
{
    let skip = shifted_column(from, right);
    if skip < 0 {
        let before = (-skip as usize).min(width);
        let count = cells.min(width - before);
        RowStripOverlap {
            first: 0,
            before,
            count,
        }
    } else {
        let first = (skip as usize).min(cells);
        let count = (cells - first).min(width);
        RowStripOverlap {
            first,
            before: 0,
            count,
        }
    }
}

/// Applies an operator along a strip that begins at `from`, in place. The strip holds the left operands. The right
/// operands are the cells of `source` that are `right` columns to the right; they are null outside the row.
pub fn apply_operator_to_shifted_row(
    operator: Operator,
    row: &mut [Cell],
    source: &[Cell],
    right: i32,
    from: usize,
)
    requires { from ≤ 65535 }
    ensures { RowHoldsCellAtEachColumn row.old row.new
        (λ c. operator_value operator (at row.old c)
        (item_at_integer_or_default None source.now (pos (from + c) +ℤ right))) }
{
    let overlap = overlap_of_row_and_strip(source.len(), right, from, row.len());
    let part = &source[overlap.first..overlap.first + overlap.count];
    let (left, others) = row.split_at_mut(overlap.before);
    let (middle, after) = others.split_at_mut(overlap.count);
    apply_operator_with_cell(operator, left, Cell::null());
    apply_operator_to_rows(operator, middle, part);
    apply_operator_with_cell(operator, after, Cell::null());
}
