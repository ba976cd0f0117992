//! Replaces labels with clump numbers.

ghost use Rattle.std.specs.Prelude.{◌+◌, ◌<◌, ◌≤◌, length};
ghost use Rattle.cell_clumps.specs.parts.Labels.{LabelsPointToSmallerOrSelf};
ghost use Rattle.cell_clumps.specs.parts.ClumpNumbers.{CanNumberLabelsFromPlace, ReplacesLabelByClumpNumber, ReplacesLabelsByClumpNumbers};

// Replaces a label with a number: an open label with the next number, a closed label with the number of the label that
// it points to. Returns the largest number so far.
fn replace_label_by_clump_number(table: &mut [u32], place: u32, count: u32) -> u32
    requires inside { place < length table.old }
    requires short { length table.old < 2147483648 }
    requires ready { CanNumberLabelsFromPlace place table.old }
    requires few { count ≤ place }
    ensures ready { CanNumberLabelsFromPlace (place + 1) table.new }
    ensures few { result ≤ place + 1 }
    ensures numbered { ReplacesLabelByClumpNumber place table.old count table.new result }
{
    let label = table[place as usize];
    if label == place {
        table[place as usize] = count + 1;
        count + 1
    } else {
        table[place as usize] = table[label as usize];
        count
    }
}

// Replaces each label in the table with the number of its clump.
pub(crate) fn replace_labels_by_clump_numbers(table: &mut [u32])
    requires down { LabelsPointToSmallerOrSelf table.old }
    requires short { length table.old < 2147483648 }
    ensures numbered { ReplacesLabelsByClumpNumbers table.old table.new }
{
    let mut count = 0;
    for place in 0..table.len() as u32 {
        count = replace_label_by_clump_number(table, place, count);
    }
}
