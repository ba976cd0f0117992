//! Computes the runs of the numbering: clumps of a tile with consecutive numbers in the full map.

ghost use Rattle.std.specs.Prelude.{ℕ, ◌≡◌, ◌≤◌, ◌<◌, ◌+◌, ◌-◌, ◌++◌, ◌^◌, ◌↔◌, List, IfOk, IsTrue, OnOk, length, map, slice_index};
ghost use Rattle.std.specs.List.{range_with_len};
ghost use Rattle.cell_join_numbers.specs.Stretches.{consecutive_clumps_of_tile};
ghost use Rattle.cell_join_numbers.specs.declared.stretch.ConsecutiveClumps.{ConsecutiveClumps};
ghost use Rattle.cell_join_numbers.specs.SparseLabels.{paired_label_count_before_label};
ghost use Rattle.cell_join_numbers.specs.SparseNumbers.{AreNumbersAndRootCountsOfLabels, AreNumbersOfLabels};
ghost use Rattle.cell_join_tiles.specs.parts.RunLines.{ConsecutiveClumpsAreListed, clump_count_up_to_unfinished_run};
ghost use Rattle.cell_join_tiles.specs.parts.LabelRuns.{AddsConsecutiveClumpsOfLabels, ArePairedLabelsNumbered, consecutive_clumps_by_labels};
ghost use Rattle.cell_join_tiles.specs.parts.Spans.{TileLabelRangesFitInSixtyFourBits, LabelRangeFitsInSixtyFourBits, LabelRangesFitInSixtyFourBits, labels_of_ranges, labels_of_range, labels_of_tile_ranges};

use crate::run_lines::{Run, UnfinishedConsecutiveClumps, extend_or_begin_clump_run};
use crate::spans::LabelRange;
use cell_core::memory::Memory;
use cell_join_numbers::numbers::PairedLabelNumbers;
use cell_join_numbers::sparse::place_in_paired_labels;
use cell_join_numbers::stretch::ConsecutiveClumps;
use std::alloc::Global;

// Returns whether another paired label comes before `end`.
fn has_paired_label_before_end(paired: &[u64], place: usize, end: u64) -> bool
    ensures { IsTrue result
        ↔ (place < length paired.now) × (slice_index paired.now place < end) }
{
    match paired.get(place) {
        Some(label) => *label < end,
        None => false,
    }
}

// Numbers labels that are not paired. Each gets the next number.
fn number_unpaired_labels(
    runs: &mut Vec<ConsecutiveClumps>,
    part: u64,
    line: Option<UnfinishedConsecutiveClumps>,
    sparse: &PairedLabelNumbers,
    place: usize,
    span: LabelRange,
) -> Result<Option<UnfinishedConsecutiveClumps>, Memory>
    requires ready { ArePairedLabelsNumbered sparse.now }
    requires before { paired_label_count_before_label sparse.now.paired.items span.first ≡ place }
    requires after { paired_label_count_before_label sparse.now.paired.items
        (span.first + span.count)
        ≡ place }
    requires fits { LabelRangeFitsInSixtyFourBits span }
    requires few { clump_count_up_to_unfinished_run line + span.count < 2 ^ 64 }
    ensures clumps { IfOk result
        (λ after. clump_count_up_to_unfinished_run after
        ≡ clump_count_up_to_unfinished_run line + span.count) }
    ensures lines { IfOk result (AddsConsecutiveClumpsOfLabels sparse.now part line runs.old.items
        runs.new.items (labels_of_range span)) }
{
    if span.count == 0 {
        return Ok(line);
    }
    let first = span.first - place as u64 + sparse.roots[place] + 1;
    let run = Run {
        first,
        last: first + (span.count - 1),
        count: span.count,
    };
    extend_or_begin_clump_run(runs, part, line, run)
}

// Numbers a paired label.
fn number_paired_label(
    runs: &mut Vec<ConsecutiveClumps>,
    part: u64,
    line: Option<UnfinishedConsecutiveClumps>,
    sparse: &PairedLabelNumbers,
    place: usize,
) -> Result<Option<UnfinishedConsecutiveClumps>, Memory>
    requires ready { ArePairedLabelsNumbered sparse.now }
    requires inside { place < length sparse.now.paired.items }
    requires fits { slice_index sparse.now.paired.items place + 1 < 2 ^ 64 }
    requires few { clump_count_up_to_unfinished_run line + 1 < 2 ^ 64 }
    ensures clumps { IfOk result (λ after. clump_count_up_to_unfinished_run after
        ≡ clump_count_up_to_unfinished_run line + 1) }
    ensures lines { IfOk result (AddsConsecutiveClumpsOfLabels sparse.now part line runs.old.items
        runs.new.items
        (range_with_len (slice_index sparse.now.paired.items place) 1)) }
{
    let number = sparse.numbers[place] + 1;
    let run = Run {
        first: number,
        last: number,
        count: 1,
    };
    extend_or_begin_clump_run(runs, part, line, run)
}

// How far the labels of a span have been numbered.
#[derive(Clone, Copy)]
pub(crate) struct LabelNumberingProgress {
    pub(crate) label: u64,
    pub(crate) place: usize,
    pub(crate) line: Option<UnfinishedConsecutiveClumps>,
}

// Numbers the labels up to and including the next paired label.
fn number_labels_up_to_next_paired(
    runs: &mut Vec<ConsecutiveClumps>,
    part: u64,
    sparse: &PairedLabelNumbers,
    from: LabelNumberingProgress,
) -> Result<LabelNumberingProgress, Memory>
    requires ready { ArePairedLabelsNumbered sparse.now }
    requires at { paired_label_count_before_label sparse.now.paired.items from.label ≡ from.place }
    requires inside { from.place < length sparse.now.paired.items }
    requires fits { slice_index sparse.now.paired.items from.place + 1 < 2 ^ 64 }
    requires few { clump_count_up_to_unfinished_run from.line +
        (slice_index sparse.now.paired.items from.place + 1 - from.label) < 2 ^ 64 }
    ensures label { IfOk result
        (λ after. after.label ≡ slice_index sparse.now.paired.items from.place + 1) }
    ensures on { IfOk result (λ after. from.label < after.label) }
    ensures at { IfOk result
        (λ after. paired_label_count_before_label sparse.now.paired.items after.label
        ≡ after.place) }
    ensures clumps { IfOk result (λ after. clump_count_up_to_unfinished_run after.line
        ≡ clump_count_up_to_unfinished_run from.line + (after.label - from.label)) }
    ensures lines { IfOk result (λ after. AddsConsecutiveClumpsOfLabels sparse.now part from.line
        runs.old.items runs.new.items
        (range_with_len from.label (after.label - from.label)) after.line) }
{
    let label = sparse.paired[from.place];
    let span = LabelRange {
        first: from.label,
        count: label - from.label,
    };
    let line = number_unpaired_labels(runs, part, from.line, sparse, from.place, span)?;
    let line = number_paired_label(runs, part, line, sparse, from.place)?;
    Ok(LabelNumberingProgress {
        label: label + 1,
        place: from.place + 1,
        line,
    })
}

// Numbers the labels of a span.
fn number_labels_of_range(
    runs: &mut Vec<ConsecutiveClumps>,
    part: u64,
    line: Option<UnfinishedConsecutiveClumps>,
    sparse: &PairedLabelNumbers,
    span: LabelRange,
) -> Result<Option<UnfinishedConsecutiveClumps>, Memory>
    requires ready { ArePairedLabelsNumbered sparse.now }
    requires fits { LabelRangeFitsInSixtyFourBits span }
    requires few { clump_count_up_to_unfinished_run line + span.count < 2 ^ 64 }
    ensures clumps { IfOk result
        (λ after. clump_count_up_to_unfinished_run after
        ≡ clump_count_up_to_unfinished_run line + span.count) }
    ensures lines { IfOk result (AddsConsecutiveClumpsOfLabels sparse.now part line runs.old.items
        runs.new.items (labels_of_range span)) }
{
    let end = span.first + span.count;
    let paired = sparse.paired.as_slice();
    let mut walk = LabelNumberingProgress {
        label: span.first,
        place: place_in_paired_labels(paired, span.first),
        line,
    };
    'labels: while has_paired_label_before_end(paired, walk.place, end) {
        walk = number_labels_up_to_next_paired(runs, part, sparse, walk)?;
    }
    let rest = LabelRange {
        first: walk.label,
        count: end - walk.label,
    };
    number_unpaired_labels(runs, part, walk.line, sparse, walk.place, rest)
}

// Adds the runs of a tile whose clumps have these labels.
fn add_consecutive_clumps_of_tile(
    runs: &mut Vec<ConsecutiveClumps>,
    part: u64,
    sparse: &PairedLabelNumbers,
    spans: &[LabelRange],
) -> Result<(), Memory>
    requires ready { ArePairedLabelsNumbered sparse.now }
    requires fit { LabelRangesFitInSixtyFourBits spans.now }
    ensures { OnOk result ((number : ℕ → ℕ)
        → AreNumbersOfLabels number sparse.now.paired.items sparse.now.numbers.items
        sparse.now.roots.items
        → runs.new.items ≡ runs.old.items ++ consecutive_clumps_of_tile part
        (map number (labels_of_ranges spans.now))) }
{
    let mut line = None;
    for at in 0..spans.len() {
        line = number_labels_of_range(runs, part, line, sparse, spans[at])?;
    }
    if let Some(line) = line {
        runs.push(line.stretch)?;
    }
    Ok(())
}

// Returns the runs of tiles whose clumps have these labels.
pub(crate) fn consecutive_clumps_of_tiles(
    alloc: Global,
    sparse: &PairedLabelNumbers,
    tiles: &[Vec<LabelRange>],
) -> Result<Vec<ConsecutiveClumps>, Memory>
    requires ready { ArePairedLabelsNumbered sparse.now }
    requires fit { TileLabelRangesFitInSixtyFourBits tiles.now }
    ensures { IfOk result (λ runs. (number : ℕ → ℕ)
        → AreNumbersOfLabels number sparse.now.paired.items sparse.now.numbers.items
        sparse.now.roots.items
        → runs.items ≡ consecutive_clumps_by_labels number 1 (labels_of_tile_ranges tiles.now)) }
{
    let mut runs = Vec::new(alloc);
    for tile in 0..tiles.len() {
        add_consecutive_clumps_of_tile(&mut runs, tile as u64 + 1, sparse, tiles[tile].as_slice())?;
    }
    Ok(runs)
}
