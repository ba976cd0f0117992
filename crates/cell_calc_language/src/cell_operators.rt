//! Applies operators and functions to cells.

ghost use Rattle.std.specs.Prelude.{◌≡◌, pos, ◌+ℤ◌, ◌-ℤ◌, ◌*ℤ◌, ◌≤ℤ◌, ◌≤◌, Some, negsuc, neg_ℤ, int_div, unsigned_abs, false};
ghost use Rattle.cell_calc_language.specs.CellOperators.{category_or_null, cell_of_truth_value, cell_chosen_by_condition, lesser, greater_than_as_cell, is_zero, is_false, is_true, is_null, and_despite_null, or_despite_null, applied_unless_null};
ghost use Rattle.cell_calc_language.specs.Applied.{negated_cell, logical_negation_of_cell, absolute_value_of_cell, operator_value};
ghost use Rattle.cell_calc_language.specs.Joins.{known_lesser, greater_ignoring_null};
ghost use Rattle.cell_calc_grammar.specs.declared.operator.Operator.TheVariants as operator;

use cell_core::cell::Cell;

/// Returns a number as a category, or null if it is out of range.
#[inline(always)]
pub fn category_or_null(number: i32) -> Cell
    ensures { result ≡ category_or_null number }
{
    match Cell::value(number) {
        Some(cell) => cell,
        None => Cell::null(),
    }
}

/// Returns a natural number as a category.
#[tactic(auto, using(crate::proofs::Fit::fit_number))]
#[inline(always)]
pub fn number(number: u32) -> Cell
    requires { number ≤ 2147483647 }
    ensures { result ≡ Some (pos number) }
{
    category_or_null(number as i32)
}

/// Returns a number as a category, or null if there is none.
#[inline(always)]
fn cell_of_optional_number(number: Option<i32>) -> Cell
    ensures { result ≡ applied_unless_null (λ n. category_or_null n) number }
{
    match number {
        Some(number) => category_or_null(number),
        None => Cell::null(),
    }
}

/// Returns 1 if the condition holds, otherwise 0.
#[inline(always)]
pub fn cell_of_truth_value(holds: bool) -> Cell
    ensures { result ≡ cell_of_truth_value holds }
{
    if holds {
        category_or_null(1)
    } else {
        category_or_null(0)
    }
}

#[inline(always)]
fn is_zero(x: i32) -> bool
    ensures { result ≡ is_zero x }
{
    x == 0
}

/// Returns whether a cell is null.
#[inline(always)]
pub fn is_null(a: Cell) -> bool
    ensures { result ≡ is_null a }
{
    match a.get() {
        Some(_) => false,
        None => true,
    }
}

#[inline(always)]
fn is_false(a: Cell) -> bool
    ensures { result ≡ is_false a }
{
    match a.get() {
        Some(x) => is_zero(x),
        None => false,
    }
}

#[inline(always)]
fn is_true(a: Cell) -> bool
    ensures { result ≡ is_true a }
{
    match a.get() {
        Some(x) => !is_zero(x),
        None => false,
    }
}

// The compiler vectorises this overflow test, but not a checked addition.
#[inline(always)]
fn cell_of_sum(x: i32, y: i32) -> Cell
    ensures { result ≡ category_or_null (x +ℤ y) }
{
    let sum = x.wrapping_add(y);
    if (sum < x) != (y < 0) {
        Cell::null()
    } else {
        category_or_null(sum)
    }
}

#[inline(always)]
fn cell_of_difference(x: i32, y: i32) -> Cell
    ensures { result ≡ category_or_null (x -ℤ y) }
{
    let difference = x.wrapping_sub(y);
    if (x < difference) != (y < 0) {
        Cell::null()
    } else {
        category_or_null(difference)
    }
}

#[tactic(auto, using(crate::proofs::Fit::fit_checked))]
#[inline(always)]
fn cell_of_product(x: i32, y: i32) -> Cell
    ensures { result ≡ category_or_null (x *ℤ y) }
{
    cell_of_optional_number(x.checked_mul(y))
}

#[inline(always)]
fn cell_of_quotient(x: i32, y: i32) -> Cell
    requires { is_zero y ≡ false }
    ensures { result ≡ category_or_null (int_div x y) }
{
    cell_of_optional_number(x.checked_div(y))
}

#[inline(always)]
fn cell_of_remainder(x: i32, y: i32) -> Cell
    requires category { negsuc 2147483646 ≤ℤ x }
    requires divisor { is_zero y ≡ false }
    ensures { result ≡ category_or_null (x -ℤ (y *ℤ int_div x y)) }
{
    cell_of_optional_number(x.checked_rem(y))
}

/// `a + b`; null if either is null, or if the sum is out of range (profile).
#[inline(always)]
pub fn sum(a: Cell, b: Cell) -> Cell
    ensures { result ≡ operator_value operator.Plus a b }
{
    match (a.get(), b.get()) {
        (Some(x), Some(y)) => cell_of_sum(x, y),
        _ => Cell::null(),
    }
}

/// `a - b`; null if either is null, or if the difference is out of range (profile).
#[inline(always)]
pub fn difference(a: Cell, b: Cell) -> Cell
    ensures { result ≡ operator_value operator.Minus a b }
{
    match (a.get(), b.get()) {
        (Some(x), Some(y)) => cell_of_difference(x, y),
        _ => Cell::null(),
    }
}

/// `a * b`; null if either is null, or if the product is out of range (profile).
#[inline(always)]
pub fn product_of_two_cells(a: Cell, b: Cell) -> Cell
    ensures { result ≡ operator_value operator.Times a b }
{
    match (a.get(), b.get()) {
        (Some(x), Some(y)) => cell_of_product(x, y),
        _ => Cell::null(),
    }
}

/// `a / b`, truncated towards zero; null if either is null, or if `b` is 0 (GRASS manual: r.mapcalc).
#[inline(always)]
pub fn quotient_of_two_cells(a: Cell, b: Cell) -> Cell
    ensures { result ≡ operator_value operator.Divide a b }
{
    match (a.get(), b.get()) {
        (Some(x), Some(y)) => {
            if is_zero(y) {
                Cell::null()
            } else {
                cell_of_quotient(x, y)
            }
        }
        _ => Cell::null(),
    }
}

/// `a % b`, with the sign of `a`; null if either is null, or if `b` is 0 (profile).
#[inline(always)]
pub fn remainder_of_two_cells(a: Cell, b: Cell) -> Cell
    ensures { result ≡ operator_value operator.Modulo a b }
{
    match (a.get(), b.get()) {
        (Some(x), Some(y)) => {
            if is_zero(y) {
                Cell::null()
            } else {
                cell_of_remainder(x, y)
            }
        }
        _ => Cell::null(),
    }
}

/// `a < b` as 1 or 0; null if either is null.
#[inline(always)]
pub fn less_than_as_cell(a: Cell, b: Cell) -> Cell
    ensures { result ≡ operator_value operator.Less a b }
{
    match (a.get(), b.get()) {
        (Some(x), Some(y)) => cell_of_truth_value(x < y),
        _ => Cell::null(),
    }
}

/// `a <= b` as 1 or 0; null if either is null.
#[inline(always)]
pub fn less_or_equal_as_cell(a: Cell, b: Cell) -> Cell
    ensures { result ≡ operator_value operator.LessEqual a b }
{
    match (a.get(), b.get()) {
        (Some(x), Some(y)) => cell_of_truth_value(x <= y),
        _ => Cell::null(),
    }
}

/// `a > b` as 1 or 0; null if either is null.
#[inline(always)]
pub fn greater_than_as_cell(a: Cell, b: Cell) -> Cell
    ensures { result ≡ operator_value operator.Greater a b }
{
    match (a.get(), b.get()) {
        (Some(x), Some(y)) => cell_of_truth_value(x > y),
        _ => Cell::null(),
    }
}

/// `a >= b` as 1 or 0; null if either is null.
#[inline(always)]
pub fn greater_or_equal_as_cell(a: Cell, b: Cell) -> Cell
    ensures { result ≡ operator_value operator.GreaterEqual a b }
{
    match (a.get(), b.get()) {
        (Some(x), Some(y)) => cell_of_truth_value(x >= y),
        _ => Cell::null(),
    }
}

/// `a == b` as 1 or 0; null if either is null.
#[inline(always)]
pub fn equal_as_cell(a: Cell, b: Cell) -> Cell
    ensures { result ≡ operator_value operator.Equal a b }
{
    match (a.get(), b.get()) {
        (Some(x), Some(y)) => cell_of_truth_value(x == y),
        _ => Cell::null(),
    }
}

/// `a != b` as 1 or 0; null if either is null.
#[inline(always)]
pub fn not_equal_as_cell(a: Cell, b: Cell) -> Cell
    ensures { result ≡ operator_value operator.NotEqual a b }
{
    match (a.get(), b.get()) {
        (Some(x), Some(y)) => cell_of_truth_value(x != y),
        _ => Cell::null(),
    }
}

/// `a && b` as 1 or 0; null if either is null.
#[inline(always)]
pub fn and_of_two_cells(a: Cell, b: Cell) -> Cell
    ensures { result ≡ operator_value operator.And a b }
{
    match (a.get(), b.get()) {
        (Some(x), Some(y)) => cell_of_truth_value(!is_zero(x) && !is_zero(y)),
        _ => Cell::null(),
    }
}

/// `a || b` as 1 or 0; null if either is null.
#[inline(always)]
pub fn or_of_two_cells(a: Cell, b: Cell) -> Cell
    ensures { result ≡ operator_value operator.Or a b }
{
    match (a.get(), b.get()) {
        (Some(x), Some(y)) => cell_of_truth_value(!is_zero(x) || !is_zero(y)),
        _ => Cell::null(),
    }
}

/// Returns the smaller of two cells, or null if either is null.
#[inline(always)]
pub fn lesser(a: Cell, b: Cell) -> Cell
    ensures { result ≡ lesser a b }
{
    match (a.get(), b.get()) {
        (Some(x), Some(y)) => { if y < x { b } else { a } }
        _ => Cell::null(),
    }
}

/// Returns the larger of two cells, or null if either is null.
#[inline(always)]
pub fn larger(a: Cell, b: Cell) -> Cell
    ensures { result ≡ greater_than_as_cell a b }
{
    match (a.get(), b.get()) {
        (Some(x), Some(y)) => { if y < x { a } else { b } }
        _ => Cell::null(),
    }
}

/// `a &&& b`: 0 if either is 0, even if the other is null; otherwise like `a && b` (GRASS manual: r.mapcalc).
#[inline(always)]
pub fn and_despite_null(a: Cell, b: Cell) -> Cell
    ensures { result ≡ operator_value operator.KnownAnd a b }
{
    if is_false(a) || is_false(b) {
        return category_or_null(0);
    }
    if is_null(a) || is_null(b) {
        return Cell::null();
    }
    category_or_null(1)
}

/// `a ||| b`: 1 if either is a number other than 0, even if the other is null; otherwise like `a || b` (GRASS manual:
/// r.mapcalc).
#[inline(always)]
pub fn or_despite_null(a: Cell, b: Cell) -> Cell
    ensures { result ≡ operator_value operator.KnownOr a b }
{
    if is_true(a) || is_true(b) {
        return category_or_null(1);
    }
    if is_null(a) || is_null(b) {
        return Cell::null();
    }
    category_or_null(0)
}

/// Returns the smaller of two cells, ignoring null.
#[inline(always)]
pub fn known_lesser(a: Cell, b: Cell) -> Cell
    ensures { result ≡ known_lesser a b }
{
    if is_null(a) {
        return b;
    }
    if is_null(b) {
        return a;
    }
    lesser(a, b)
}

/// Returns the larger of two cells, ignoring null.
#[inline(always)]
pub fn known_larger(a: Cell, b: Cell) -> Cell
    ensures { result ≡ greater_ignoring_null a b }
{
    if is_null(a) {
        return b;
    }
    if is_null(b) {
        return a;
    }
    larger(a, b)
}

/// `-a`; null if `a` is null.
#[tactic(auto, using(crate::proofs::Fit::fit_checked))]
#[inline(always)]
pub fn negated_cell(a: Cell) -> Cell
    ensures { result ≡ negated_cell a }
{
    match a.get() {
        Some(x) => cell_of_optional_number(x.checked_neg()),
        None => Cell::null(),
    }
}

/// `!a`: 1 if `a` is 0, 0 if it is another number, and null if it is null.
#[inline(always)]
pub fn logical_negation_of_cell(a: Cell) -> Cell
    ensures { result ≡ logical_negation_of_cell a }
{
    match a.get() {
        Some(x) => cell_of_truth_value(is_zero(x)),
        None => Cell::null(),
    }
}

/// `abs(a)`; null if `a` is null.
#[tactic(auto, using(crate::proofs::Fit::fit_checked))]
#[inline(always)]
pub fn cell_absolute_value(a: Cell) -> Cell
    ensures { result ≡ absolute_value_of_cell a }
{
    match a.get() {
        Some(x) => cell_of_optional_number(x.checked_abs()),
        None => Cell::null(),
    }
}

/// `if(condition, yes, no)`: `no` if the condition is 0, `yes` if it is another number, and null if it is null.
#[inline(always)]
pub fn cell_chosen_by_condition(condition: Cell, yes: Cell, no: Cell) -> Cell
    ensures { result ≡ cell_chosen_by_condition condition yes no }
{
    match condition.get() {
        Some(x) => { if is_zero(x) { no } else { yes } }
        None => condition,
    }
}

/// `isnull(a)`: 1 if `a` is null, otherwise 0.
#[inline(always)]
pub fn null_flag_of_cell(a: Cell) -> Cell
    ensures { result ≡ cell_of_truth_value (is_null a) }
{
    cell_of_truth_value(is_null(a))
}
