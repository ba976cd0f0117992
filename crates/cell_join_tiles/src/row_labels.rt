//! Computes the labels of the clumps in a row of tiles.

ghost use Rattle.std.specs.Prelude.{ℕ, ◌≡◌, ◌≤◌, ◌<◌, ◌+◌, ◌^◌, IfNone, IfOk, IfSome, length, nat_le, sum, slice_index};
ghost use Rattle.std.specs.List.Sorted.{IsNonDecreasingBy};
ghost use Rattle.cell_join_tiles.specs.parts.RowLabels.{AreClumpCountsUpToRows, label_of_clump_from_first_labels};

use cell_core::memory::Memory;
use std::alloc::Global;

// Returns, for each row of a tile, the number of clumps that begin in it or above it.
pub(crate) fn begun_clump_counts_up_to_rows(
    alloc: Global,
    begun: &[u64],
) -> Result<Vec<u64>, Memory>
    requires { sum begun.now < 2 ^ 64 }
    ensures { IfOk result (λ ends. AreClumpCountsUpToRows begun.now ends.items) }
{
    let mut ends = Vec::new(alloc);
    let mut end = 0;
    for row in 0..begun.len() {
        end += begun[row];
        ends.push(end)?;
    }
    Ok(ends)
}

// Returns the label of a tile's clump, counted from 0 in its tile. For each row of the tile, `firsts` contains the
// label of the first clump that begins in it, and `begun` the number of clumps that begin in it.
pub(crate) fn label_of_tile_clump(
    firsts: &[u64],
    begun: &[u64],
    ends: &[u64],
    clump: u64,
) -> Option<u64>
    requires long { length firsts.now ≡ length begun.now }
    requires ends { AreClumpCountsUpToRows begun.now ends.now }
    requires fits { (i : ℕ) → i < length begun.now →
        slice_index firsts.now i + slice_index begun.now i < 2 ^ 64 }
    ensures none { IfNone result (sum begun.now ≤ clump) }
    ensures some { IfSome result (λ label. (clump < sum begun.now)
        × (label ≡ label_of_clump_from_first_labels firsts.now begun.now clump)) }
{
    let row = cells_of_map_row(ends, clump);
    if row >= begun.len() {
        return None;
    }
    let before = ends[row] - begun[row];
    Some(firsts[row] + (clump - before))
}

// Returns the row of a tile in which a clump begins, or the number of rows.
fn cells_of_map_row(ends: &[u64], clump: u64) -> usize
    requires { IsNonDecreasingBy (λ end. end) ends.now }
    ensures inside { result ≤ length ends.now }
    ensures before { (i : ℕ) → i < result → slice_index ends.now i ≤ clump }
    ensures after { (i : ℕ) → result ≤ i → i < length ends.now → clump < slice_index ends.now i }
{
    ends.partition_point(
        |end: &u64| -> bool
            ensures { result ≡ nat_le end.now clump }
        { *end <= clump },
    )
}

/// Advances the labels of the first clumps in each row to the next tile on the right.
pub fn advance_first_labels_to_next_tile(line: &mut [u64], begun: &[u64])
    requires long { length line.old ≡ length begun.now }
    requires fits { (i : ℕ) → i < length begun.now →
        slice_index line.old i + slice_index begun.now i < 2 ^ 64 }
    ensures long { length line.new ≡ length line.old }
    ensures each { (i : ℕ) → i < length begun.now →
        slice_index line.new i ≡ slice_index line.old i + slice_index begun.now i }
{
    for row in 0..begun.len() {
        line[row] += begun[row];
    }
}
