//! A union-find table: the nodes of labels, and which of them are united.

ghost use Rattle.std.specs.Prelude.{◌≡◌, ℕ, ◌<◌, ◌≤◌, ◌+◌, [], ◌∷◌, OnOk, length};
ghost use Rattle.cell_clumps.specs.parts.Labels.{LabelsPointToSmallerOrSelf};
ghost use Rattle.cell_join_numbers.specs.UnionFind.{JoinsLabelsOfEachPair, KeepsRootOfEachLabel, AreRootsOfLabels};

use cell_core::memory::Memory;

// Appends `count` nodes, each of them a root.
pub(crate) fn add_root_nodes(table: &mut Vec<u64>, count: u64) -> Result<(), Memory>
    requires down { LabelsPointToSmallerOrSelf table.old.items }
    ensures down { OnOk result (LabelsPointToSmallerOrSelf table.new.items) }
    ensures long { OnOk result (length table.new.items ≡ length table.old.items + count) }
    ensures leads { OnOk result (KeepsRootOfEachLabel table.old.items table.new.items) }
{
    for _added in 0..count {
        let node = table.len() as u64;
        table.push(node)?;
    }
    Ok(())
}

// Returns the root to which a node leads. Halves the path to the root, except its first step.
fn root_of_node(table: &mut [u64], node: u64) -> u64
    requires down { LabelsPointToSmallerOrSelf table.old }
    requires inside { node < length table.old }
    ensures down { LabelsPointToSmallerOrSelf table.new }
    ensures low { result ≤ node }
    ensures leads { KeepsRootOfEachLabel table.old table.new }
    ensures root { (root_of_node : ℕ → ℕ) → AreRootsOfLabels table.old root_of_node
        → result ≡ root_of_node node }
{
    let mut at = table[node as usize];
    while table[at as usize] != at {
        let next = table[table[at as usize] as usize];
        table[at as usize] = next;
        at = next;
    }
    at
}

// Unites two nodes: the larger of their roots then points to the smaller.
pub(crate) fn unite_nodes(table: &mut [u64], one: u64, other: u64)
    requires down { LabelsPointToSmallerOrSelf table.old }
    requires one_inside { one < length table.old }
    requires other_inside { other < length table.old }
    ensures down { LabelsPointToSmallerOrSelf table.new }
    ensures leads { JoinsLabelsOfEachPair ((one, other) ∷ []) table.old table.new }
{
    let first = root_of_node(table, one);
    let second = root_of_node(table, other);
    if first < second {
        table[second as usize] = first;
    } else {
        table[first as usize] = second;
    }
}
