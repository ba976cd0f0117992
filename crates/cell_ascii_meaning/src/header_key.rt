//! Keys of header lines.

/// A key of a header line.
#[derive(Clone, Copy, Debug, PartialEq, Eq)]
pub enum HeaderKey {
    North,
    South,
    East,
    West,
    Rows,
    Cols,
    Null,
    CellType,
    Multiplier,
}
