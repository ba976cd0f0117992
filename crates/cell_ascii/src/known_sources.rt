//! A law about sources whose bytes are known.

ghost use Rattle.cell_ascii.specs.KnownSources.{SupposedResultsHoldForKnownBytes};

use cell_core::source::Source;

/// What [`read_map`](crate::grid_reader::read_map) and a reader ensure for each supposed content holds of the bytes of
/// a source, if they are known.
pub fn results_hold_for_known_bytes<R: Source>()
    ensures { SupposedResultsHoldForKnownBytes R.coming R.supposed }
{}
