//! The law that only paired labels are needed to number all clumps.

ghost use Rattle.cell_join_numbers.specs.SparseLabels.{PairedLabelsGiveClumpNumbers};

/// Among the clumps of tiles of any shape, only paired ones need a node in the table. The number of any other label is
/// the number of unpaired labels before it, plus the number of roots before it, plus one.
pub fn paired_labels_give_clump_numbers()
    ensures { PairedLabelsGiveClumpNumbers }
{}
