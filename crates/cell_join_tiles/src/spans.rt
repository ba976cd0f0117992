//! Stores the labels of a tile's clumps as spans of consecutive labels.

ghost use Rattle.std.specs.Prelude.{ℕ, ◌≡◌, ◌++◌, ◌+◌, ◌<◌, ◌^◌, All, IfOk, length, map, sum, slice_index};
ghost use Rattle.std.specs.List.{range_with_len};
ghost use Rattle.cell_join_tiles.specs.parts.RowLabels.{label_of_clump_from_first_labels};
ghost use Rattle.cell_join_tiles.specs.parts.Spans.{LabelRangeFitsInSixtyFourBits, LabelRangesFitInSixtyFourBits, labels_of_ranges, labels_of_range};

use cell_core::memory::Memory;
use std::alloc::Global;

// `count` labels, starting at `first`.
#[derive(Clone, Copy, Debug, PartialEq, Eq)]
pub(crate) struct LabelRange {
    pub(crate) first: u64,
    pub(crate) count: u64,
}

// Adds the next labels. Extends the last span, or finishes it and begins a new one.
fn extend_or_finish_label_range(
    spans: &mut Vec<LabelRange>,
    from: LabelRange,
    next: LabelRange,
) -> Result<LabelRange, Memory>
    requires from { LabelRangeFitsInSixtyFourBits from }
    requires next { LabelRangeFitsInSixtyFourBits next }
    requires each { All LabelRangeFitsInSixtyFourBits spans.old.items }
    ensures from { IfOk result (λ after. LabelRangeFitsInSixtyFourBits after) }
    ensures each { IfOk result (λ _. All LabelRangeFitsInSixtyFourBits spans.new.items) }
    ensures labels { IfOk result (λ after. labels_of_ranges spans.new.items ++ labels_of_range after
        ≡ (labels_of_ranges spans.old.items ++ labels_of_range from) ++ labels_of_range next) }
{
    if next.count == 0 {
        return Ok(from);
    }
    if from.first + from.count == next.first {
        return Ok(LabelRange {
            first: from.first,
            count: from.count + next.count,
        });
    }
    spans.push(from)?;
    Ok(next)
}

// Returns the labels of all clumps of a tile, in the order of their numbers.
pub(crate) fn label_ranges_of_tile(
    alloc: Global,
    firsts: &[u64],
    begun: &[u64],
) -> Result<Vec<LabelRange>, Memory>
    requires long { length firsts.now ≡ length begun.now }
    requires fits { (i : ℕ) → i < length begun.now →
        slice_index firsts.now i + slice_index begun.now i < 2 ^ 64 }
    requires few { sum begun.now < 2 ^ 64 }
    ensures labels { IfOk result (λ spans. labels_of_ranges spans.items
        ≡ map (label_of_clump_from_first_labels firsts.now begun.now)
        (range_with_len 0 (sum begun.now))) }
    ensures fit { IfOk result (λ spans. LabelRangesFitInSixtyFourBits spans.items) }
{
    let mut spans = Vec::new(alloc);
    let mut from = LabelRange { first: 0, count: 0 };
    for row in 0..begun.len() {
        let next = LabelRange {
            first: firsts[row],
            count: begun[row],
        };
        from = extend_or_finish_label_range(&mut spans, from, next)?;
    }
    spans.push(from)?;
    Ok(spans)
}
