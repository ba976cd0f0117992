//! Errors in grid texts.

use cell_core::region::RegionFault;
use thiserror::Error;

/// The kind of an error in a grid text.
#[derive(Clone, Copy, Debug, PartialEq, Eq, Error)]
pub enum GridKind {
    /// A header line with an unknown key, with no value or more than one, or with a null text that contains a colon.
    #[error("bad header line")]
    BadHeader,
    /// A key that occurred before.
    #[error("key given twice")]
    TwiceKey,
    /// A header without one of the six required keys.
    #[error("missing key")]
    MissingKey,
    /// A value that is not a valid number for its key.
    #[error("bad number")]
    BadNumber,
    /// A type other than `int`.
    #[error("type not supported")]
    BadType,
    /// Coordinates and sizes that do not form a region.
    #[error("bad region")]
    Region(RegionFault),
    /// A word that is neither null nor a whole number.
    #[error("bad cell")]
    BadCell,
    /// A number that is not a category, or whose product with the multiplier is not a category.
    #[error("cell out of range")]
    CellRange,
    /// A text that ends before the last cell.
    #[error("too few cells")]
    TooFew,
    /// A word after the last cell.
    #[error("too many cells")]
    TooMany,
    /// A source that returned an `Err`.
    #[error("read failed")]
    Read,
    /// Memory ran out.
    #[error("no memory")]
    Memory,
    /// An earlier call of the reader failed.
    #[error("reader failed")]
    Failed,
    /// More than 1,048,576 blanks and line feeds in a row.
    #[error("too many blanks")]
    ReaderStuck,
    /// A word of more than 64 bytes.
    #[error("token too long")]
    LongToken,
}

/// An error and its line, counted from 1. The line is 0 if memory ran out or the reader failed before.
#[derive(Clone, Copy, Debug, PartialEq, Eq, Error)]
#[error("{line}: {kind}")]
pub struct GridFault {
    pub kind: GridKind,
    pub line: u64,
}
