//! Runs: clumps of a tile with consecutive numbers in the full map.

ghost use Rattle.std.specs.Prelude.{◌≡◌, ◌==◌, ◌+◌};

/// Clumps of a tile, from a first to a last clump, with consecutive numbers in the full map.
#[derive(Clone, Copy, Debug, PartialEq, Eq)]
pub struct ConsecutiveClumps {
    /// The index of the tile, counted from 1.
    pub tile: u64,
    /// The number of the first clump in the tile, counted from 1.
    pub first: u64,
    /// The number of the last clump in the tile.
    pub last: u64,
    /// The number of the first clump in the full map.
    pub number: u64,
}

/// Returns whether a number is one more than another number.
pub fn is_next_number(previous: u64, number: u64) -> bool
    ensures { result ≡ (number == previous + 1) }
{
    match previous.checked_add(1) {
        Some(next) => number == next,
        None => false,
    }
}
