//! Numbers of cells, which hashes and sorting use.

use cell_core::cell::Cell;

/// A multiplier that spreads the bits of a number: 2^64 divided by the golden ratio.
pub const HASH_MULTIPLIER: u64 = 11400714819323198485;

/// Returns the code of a cell: 0 for null, since the lowest number is not a category.
#[inline(always)]
pub fn code_of_cell(cell: Cell) -> u64 {
    let number = cell.get().unwrap_or(i32::MIN);
    (i64::from(number) + 2147483648) as u64
}
