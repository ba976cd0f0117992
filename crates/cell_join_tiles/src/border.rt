//! The border of a tile.

use cell_core::cell::Cell;

/// A side of a tile: the cells of its first or last row or column, and their clump numbers in the tile.
#[derive(Debug, Drop)]
pub struct TileSide {
    /// The cells of the tile's map, from the left or from the top.
    pub cells: Vec<Cell>,
    /// The cells of the map of clump numbers.
    pub numbers: Vec<Cell>,
}

/// The part of a tile that is needed for joining.
#[derive(Debug, Drop)]
pub struct TileBorder {
    /// The first row.
    pub first: TileSide,
    /// The last row, which is also the first row if the tile has only one.
    pub last: TileSide,
    /// The first column.
    pub left: TileSide,
    /// The last column.
    pub right: TileSide,
    /// The number of clumps that begin in each row of the tile.
    pub begun: Vec<u64>,
}
