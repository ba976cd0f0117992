//! Finds the pairs of labels whose cells meet at a seam.

ghost use Rattle.std.specs.Prelude.{◌≡◌, ◌∷◌, [], ◌<◌, ◌+◌, ◌^◌, Contains, IsTrue, OnOk, None, slice_index_or};
ghost use Rattle.std.specs.Ordering.{int_eq};
ghost use Rattle.cell_join_tiles.specs.SeamLines.{label_pair_of_equal_cells, label_pairs_of_adjacent_lines, label_pairs_of_opposite_cells};
ghost use Rattle.cell_join_tiles.specs.parts.RowMarks.{AddsLabelPairs};

use crate::marks::Mark;
use cell_clumps::clump::Joining;
use cell_core::memory::Memory;

// Returns whether two cells have the same category.
fn have_same_category(one: Mark, other: Mark) -> bool
    ensures { result ≡ int_eq one.category other.category }
{
    one.category == other.category
}

// Returns the mark at index `place` of a line.
fn labelled_category_at_place(line: &[Option<Mark>], place: usize) -> Option<Mark>
    ensures { result ≡ slice_index_or line.now place None }
{
    match line.get(place) {
        Some(mark) => *mark,
        None => None,
    }
}

// Returns whether a pair was the last one added.
fn is_last_added_pair(pairs: &[(u64, u64)], one: u64, other: u64) -> bool
    ensures { IsTrue result → Contains pairs.now (one, other) }
{
    match pairs.last() {
        Some(pair) => pair.0 == one && pair.1 == other,
        None => false,
    }
}

// Adds a pair, unless it is the last one added. Along a seam, the same pair is often repeated.
fn add_pair_unless_last(pairs: &mut Vec<(u64, u64)>, one: u64, other: u64) -> Result<(), Memory>
    ensures { OnOk result (AddsLabelPairs pairs.old.items pairs.new.items ((one, other) ∷ [])) }
{
    if is_last_added_pair(pairs, one, other) {
        return Ok(());
    }
    pairs.push((one, other))?;
    Ok(())
}

// Adds the pair of two cells' labels, if the cells have the same category.
fn add_label_pair_of_equal_cells(
    pairs: &mut Vec<(u64, u64)>,
    one: Option<Mark>,
    other: Option<Mark>,
) -> Result<(), Memory>
    ensures { OnOk result (AddsLabelPairs pairs.old.items pairs.new.items
        (label_pair_of_equal_cells one other)) }
{
    let Some(one) = one else {
        return Ok(());
    };
    let Some(other) = other else {
        return Ok(());
    };
    if have_same_category(one, other) {
        add_pair_unless_last(pairs, one.label, other.label)?;
    }
    Ok(())
}

// Adds the pair of the cell at `place` in one line and the cell opposite it in the other. If corners connect, also adds
// the pairs of each of these cells and the next cell in the other line.
fn add_label_pairs_of_opposite_cells(
    pairs: &mut Vec<(u64, u64)>,
    joining: Joining,
    one: &[Option<Mark>],
    other: &[Option<Mark>],
    place: usize,
) -> Result<(), Memory>
    requires { place + 1 < 2 ^ 64 }
    ensures { OnOk result (AddsLabelPairs pairs.old.items pairs.new.items
        (label_pairs_of_opposite_cells joining one.now other.now place)) }
{
    add_label_pair_of_equal_cells(
        pairs,
        labelled_category_at_place(one, place),
        labelled_category_at_place(other, place),
    )?;
    if let Joining::EdgesAndCorners = joining {
        add_label_pair_of_equal_cells(
            pairs,
            labelled_category_at_place(one, place),
            labelled_category_at_place(other, place + 1),
        )?;
        add_label_pair_of_equal_cells(
            pairs,
            labelled_category_at_place(one, place + 1),
            labelled_category_at_place(other, place),
        )?;
    }
    Ok(())
}

// Adds the pairs of two adjacent lines.
pub(crate) fn add_label_pairs_of_adjacent_lines(
    pairs: &mut Vec<(u64, u64)>,
    joining: Joining,
    one: &[Option<Mark>],
    other: &[Option<Mark>],
) -> Result<(), Memory>
    ensures { OnOk result (AddsLabelPairs pairs.old.items pairs.new.items
        (label_pairs_of_adjacent_lines joining one.now other.now)) }
{
    for place in 0..one.len() {
        add_label_pairs_of_opposite_cells(pairs, joining, one, other, place)?;
    }
    Ok(())
}
