//! Places that each hold an entry of one or two maps.

use cell_core::cell::Cell;

/// The largest number of maps of an entry in a place.
pub const MAX_MAPS_OF_COUNT_SLOT: usize = 2;

/// A combination and its count. A place whose count is 0 is free.
#[derive(Clone, Copy)]
pub struct CombinationCountSlot {
    /// The cell of each map.
    pub cells: [Cell; MAX_MAPS_OF_COUNT_SLOT],
    /// The number of cells that have the combination.
    pub count: u64,
}
