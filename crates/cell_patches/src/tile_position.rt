//! The position of a tile.

/// The position of a tile in a map that contains it, and in the full map.
#[derive(Clone, Copy, Debug, PartialEq, Eq)]
pub struct TilePosition {
    /// The tile's first row in the map that contains it, counted from 0.
    pub top: u32,
    /// The tile's first column in the map that contains it.
    pub left: u32,
    /// The tile's first row in the full map.
    pub first_row: u32,
    /// The tile's first column in the full map.
    pub first_col: u32,
}
