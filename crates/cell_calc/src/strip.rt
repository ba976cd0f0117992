//! Strips of a row, and the data for evaluating expressions along them.

use cell_core::cell::Cell;
use cell_core::region::Region;

/// `width` columns of a row, starting at column `from`.
#[derive(Clone, Copy)]
pub(crate) struct RowStrip {
    pub(crate) region: Region,
    pub(crate) row: u32,
    pub(crate) from: usize,
    pub(crate) width: usize,
}

/// The values of an operand along a strip. A number or a map is copied into a row only when a row is needed.
#[derive(Drop)]
pub(crate) enum Operand {
    Number(u32),
    /// The cells of the map at index `place`, `down` rows below and `right` columns to the right.
    Map { place: usize, down: i32, right: i32 },
    Row(Vec<Cell>),
}

/// Free rows, which may be overwritten, and the arguments of a call.
#[derive(Drop)]
pub(crate) struct SpareRows {
    pub(crate) free: Vec<Vec<Cell>>,
    pub(crate) arguments: Vec<Vec<Cell>>,
}
