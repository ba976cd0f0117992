//! The paired labels, each once and in order, and the table of their nodes.

ghost use Rattle.std.specs.Prelude.{◌≡◌, ◌<◌, AllPairs, IfOk, length, map};
ghost use Rattle.cell_clumps.specs.parts.Labels.{LabelsPointToSmallerOrSelf};
ghost use Rattle.cell_join_numbers.specs.UnionFind.{JoinsLabelsOfEachPair};
ghost use Rattle.cell_join_numbers.specs.SparseLabels.{paired_label_count_before_label, places_of_label_pair};
ghost use Rattle.cell_join_numbers.specs.SparseNumbers.{AreLabelsOfPairs, labels_of_pairs};

use crate::union_find::unite_nodes;
use cell_core::memory::Memory;
use std::alloc::Global;

// Returns the labels of all pairs.
fn labels_of_pairs(alloc: Global, pairs: &[(u64, u64)]) -> Result<Vec<u64>, Memory>
    ensures { IfOk result (λ labels. labels.items ≡ labels_of_pairs pairs.now) }
{
    let mut labels = Vec::new(alloc);
    for pair in pairs {
        labels.push(pair.0)?;
        labels.push(pair.1)?;
    }
    Ok(labels)
}

// Returns each paired label once, in order.
pub(crate) fn paired_labels(alloc: Global, pairs: &[(u64, u64)]) -> Result<Vec<u64>, Memory>
    ensures ascending { IfOk result (λ paired. AllPairs ◌<◌ paired.items) }
    ensures same { IfOk result (λ paired. AreLabelsOfPairs pairs.now paired.items) }
{
    let mut paired = labels_of_pairs(alloc, pairs)?;
    paired.sort_unstable();
    paired.dedup();
    Ok(paired)
}

/// Returns the number of labels in an ordered list that are less than a label.
pub fn place_in_paired_labels(paired: &[u64], label: u64) -> usize
    requires { AllPairs ◌<◌ paired.now }
    ensures { result ≡ paired_label_count_before_label paired.now label }
{
    match paired.binary_search(&label) {
        Ok(place) => place,
        Err(place) => place,
    }
}

// Unites the nodes of each pair.
pub(crate) fn unite_nodes_of_pairs(table: &mut [u64], paired: &[u64], pairs: &[(u64, u64)])
    requires in_order { AllPairs ◌<◌ paired.now }
    requires long { length table.old ≡ length paired.now }
    requires all { AreLabelsOfPairs pairs.now paired.now }
    requires down { LabelsPointToSmallerOrSelf table.old }
    ensures down { LabelsPointToSmallerOrSelf table.new }
    ensures leads { JoinsLabelsOfEachPair (map
        (places_of_label_pair paired.now) pairs.now) table.old table.new }
{
    for pair in pairs {
        unite_nodes(
            table,
            place_in_paired_labels(paired, pair.0) as u64,
            place_in_paired_labels(paired, pair.1) as u64,
        );
    }
}
