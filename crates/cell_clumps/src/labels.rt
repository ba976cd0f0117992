//! Union-find over labels: a table maps each label to itself or to a smaller label that it was joined with.

ghost use Rattle.std.specs.Prelude.{◌≡◌, ℕ, ◌<◌, ◌≤◌, length};
ghost use Rattle.cell_clumps.specs.parts.Labels.{LabelsPointToSmallerOrSelf, LabelsLeadToRoots, root_label_after_join};

/// Returns the open label that a label leads to. Halves the path to it, after its first step.
pub fn find_root_label(table: &mut [u32], label: u32) -> u32
    requires down { LabelsPointToSmallerOrSelf table.old }
    requires inside { label < length table.old }
    ensures down { LabelsPointToSmallerOrSelf table.new }
    ensures low { result ≤ label }
    ensures reports { (open_of : ℕ → ℕ)
        → LabelsLeadToRoots table.old open_of → LabelsLeadToRoots table.new open_of }
    ensures open { (open_of : ℕ → ℕ) → LabelsLeadToRoots table.old open_of
        → result ≡ open_of label }
{
    let mut at = table[label as usize];
    while table[at as usize] != at {
        let next = table[table[at as usize] as usize];
        table[at as usize] = next;
        at = next;
    }
    at
}

/// Joins two labels: finds the open labels that they lead to, closes the larger, and makes it point to the smaller. Not
/// inlined, because it is rarely called, and the loops over cells are faster without it.
#[inline(never)]
pub fn join_labels(table: &mut [u32], one: u32, other: u32)
    requires down { LabelsPointToSmallerOrSelf table.old }
    requires one_inside { one < length table.old }
    requires other_inside { other < length table.old }
    ensures down { LabelsPointToSmallerOrSelf table.new }
    ensures reports { (open_of : ℕ → ℕ) → LabelsLeadToRoots table.old open_of
        → LabelsLeadToRoots table.new (root_label_after_join open_of one other) }
{
    let first = find_root_label(table, one);
    let second = find_root_label(table, other);
    if first < second {
        table[second as usize] = first;
    } else {
        table[first as usize] = second;
    }
}
