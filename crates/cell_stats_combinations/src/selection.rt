//! Selections of maps to tabulate.

use crate::skip::Skip;
use cell_core::shelf::Shelf;

/// Maps of a shelf that are tabulated together, and which of their combinations are left out.
#[derive(Clone, Copy)]
pub struct TabulatedMaps<'a, 'b> {
    /// The shelf.
    pub shelf: &'a Shelf,
    /// The indices of the maps on the shelf.
    pub picks: &'b [usize],
    /// Which combinations are left out.
    pub skip: Skip,
}
