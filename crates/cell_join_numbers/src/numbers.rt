//! Numbers labels, but holds only the paired labels.

ghost use Rattle.std.specs.Prelude.{◌≡◌, ◌+◌, ◌<◌, ◌≤◌, ℕ, List, AllPairs, IfOk, length, slice_index};
ghost use Rattle.cell_clumps.specs.parts.Labels.{LabelsPointToSmallerOrSelf};
ghost use Rattle.cell_join_numbers.specs.LabelNumbers.{root_labels_below};
ghost use Rattle.cell_join_numbers.specs.SparseLabels.{IncludesLabelsOfPairs, IsUnionFindOfPairedLabels};
ghost use Rattle.cell_join_numbers.specs.SparseNumbers.{AreNumbersAndRootCountsOfLabels, FirstNodesHoldLabelNumbers, AreNumbersOfPairedLabels};

use crate::sparse::{paired_labels, unite_nodes_of_pairs};
use crate::union_find::add_root_nodes;
use cell_core::memory::Memory;
use std::alloc::Global;

/// The paired labels and their numbers: 24 bytes per label.
#[derive(Debug, Drop)]
pub struct PairedLabelNumbers {
    /// The paired labels, in order.
    pub paired: Vec<u64>,
    /// The number of each paired label, from 0.
    pub numbers: Vec<u64>,
    /// The number of roots before each paired label, and the number of all roots.
    pub roots: Vec<u64>,
}

// Numbers the label at index `place`: a root gets the next number, and any other label gets the number of the node that
// it points to. Returns the number of roots up to this label.
fn number_label_at_place(table: &mut [u64], paired: &[u64], place: usize, count: u64) -> u64
    requires in_order { AllPairs ◌<◌ paired.now }
    requires long { length table.old ≡ length paired.now }
    requires inside { place < length table.old }
    requires down { slice_index table.old place ≤ place }
    requires low { (k : ℕ) → k < place → slice_index table.old k ≤ slice_index paired.now k }
    requires few { count ≤ place }
    ensures later { (k : ℕ) → place < k → slice_index table.new k ≡ slice_index table.old k }
    ensures low { (k : ℕ) → k < place + 1 → slice_index table.new k ≤ slice_index paired.now k }
    ensures few { result ≤ place + 1 }
    ensures numbered { (labels : ℕ) (pairs : List (ℕ × ℕ)) (joined : List ℕ) →
        FirstNodesHoldLabelNumbers labels pairs paired.now joined place table.old count →
        FirstNodesHoldLabelNumbers labels pairs paired.now joined (place + 1) table.new result }
{
    let node = table[place];
    if node == place as u64 {
        table[place] = paired[place] - node + count;
        count + 1
    } else {
        table[place] = table[node as usize];
        count
    }
}

// Numbers all paired labels, and counts the roots before each.
fn number_paired_labels(
    alloc: Global,
    table: &mut [u64],
    paired: &[u64],
) -> Result<Vec<u64>, Memory>
    requires in_order { AllPairs ◌<◌ paired.now }
    requires long { length table.old ≡ length paired.now }
    requires down { LabelsPointToSmallerOrSelf table.old }
    ensures ready { IfOk result (λ roots. AreNumbersAndRootCountsOfLabels paired.now table.new
        roots.items) }
    ensures roots { IfOk result (λ roots. (k : ℕ) → k ≤ length paired.now
        → (labels : ℕ) (pairs : List (ℕ × ℕ)) → IncludesLabelsOfPairs labels pairs paired.now
        → IsUnionFindOfPairedLabels pairs paired.now table.old
        → slice_index roots.items k ≡ length (root_labels_below table.old k)) }
    ensures numbered { IfOk result (λ _. (labels : ℕ) (pairs : List (ℕ × ℕ))
        → IncludesLabelsOfPairs labels pairs paired.now
        → IsUnionFindOfPairedLabels pairs paired.now table.old
        → (count : ℕ) × FirstNodesHoldLabelNumbers labels pairs paired.now table.old
        (length paired.now) table.new count) }
{
    let mut roots = Vec::new(alloc);
    let mut count = 0;
    for place in 0..table.len() {
        roots.push(count)?;
        count = number_label_at_place(table, paired, place, count);
    }
    roots.push(count)?;
    Ok(roots)
}

/// Numbers labels in the full map. The labels denote the clumps of the tiles that cover the map, from 0 in the order of
/// their first cells. The pairs denote adjacent cells of one category on both sides of a seam.
///
/// Uses 16 bytes per label of a pair while it runs, and 24 bytes per paired label.
///
/// # Errors
///
/// Returns [`Memory`] if memory runs out.
pub fn numbers_of_paired_labels(
    alloc: Global,
    pairs: &[(u64, u64)],
) -> Result<PairedLabelNumbers, Memory>
    ensures ready { IfOk result (λ sparse.
        AreNumbersAndRootCountsOfLabels sparse.paired.items sparse.numbers.items
        sparse.roots.items) }
    ensures numbered { IfOk result (λ sparse.
        AreNumbersOfPairedLabels pairs.now sparse.paired.items sparse.numbers.items
        sparse.roots.items) }
{
    let paired = paired_labels(alloc, pairs)?;
    let mut table = Vec::new(alloc);
    add_root_nodes(&mut table, paired.len() as u64)?;
    let each = table.as_mut_slice();
    unite_nodes_of_pairs(each, &paired, pairs);
    let roots = number_paired_labels(alloc, each, &paired)?;
    Ok(PairedLabelNumbers {
        paired,
        numbers: table,
        roots,
    })
}
