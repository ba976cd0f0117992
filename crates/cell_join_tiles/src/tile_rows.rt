//! Joins the tiles of a row.

ghost use Rattle.std.specs.Prelude.{ℕ, ◌≡◌, ◌≢◌, ◌++◌, ◌∷◌, [], ◌+◌, ◌<◌, ◌≤◌, ◌^◌, IfNone, IfOk, IfSome, OnOk, None, length, map, sum, slice_index, slice_index_or};
ghost use Rattle.std.specs.List.{range_with_len};
ghost use Rattle.cell_join_tiles.specs.Beginnings.{clump_count_of_tile_row};
ghost use Rattle.cell_join_tiles.specs.SeamLines.{label_pairs_of_adjacent_lines};
ghost use Rattle.cell_join_tiles.specs.Values.{value_of_tile_border, values_of_tile_borders};
ghost use Rattle.cell_join_tiles.specs.parts.RowLabels.{AreFirstLabelsOfTileInRow, begun_clump_count_in_all_tiles, labels_of_clumps_in_tile, label_of_clump_from_first_labels};
ghost use Rattle.cell_join_tiles.specs.parts.RowMarks.{AddsLabelPairs, TilesHaveRowCount, labelled_last_column_on_the_left, begun_clump_counts_of_tile_row, labelled_first_rows_of_tiles, labelled_last_rows_of_tiles, labelled_categories_of_side, label_pairs_within_tile_row};
ghost use Rattle.cell_join_tiles.specs.parts.Spans.{TileLabelRangesFitInSixtyFourBits, labels_of_tile_ranges};

use crate::border::TileBorder;
use crate::marks::{Mark, add_labelled_categories_of_side};
use crate::meetings::add_label_pairs_of_adjacent_lines;
use crate::row_labels::{advance_first_labels_to_next_tile, begun_clump_counts_up_to_rows};
use crate::spans::{LabelRange, label_ranges_of_tile};
use cell_clumps::clump::Joining;
use cell_core::memory::Memory;
use std::alloc::Global;

// Returns the number of rows of the tiles in a row, if it is the same for all.
pub(crate) fn common_row_count_of_tiles(row: &[TileBorder]) -> Option<usize>
    ensures some { IfSome result (λ rows. TilesHaveRowCount rows (values_of_tile_borders row.now)) }
    ensures none { IfNone result ((rows : ℕ) → TilesHaveRowCount rows
        (values_of_tile_borders row.now) → ⊥) }
{
    if row.is_empty() {
        return Some(0);
    }
    let rows = row[0].begun.len();
    for col in 1..row.len() {
        if row[col].begun.len() != rows {
            return None;
        }
    }
    Some(rows)
}

// Adds the number of clumps of a tile, unless the sum does not fit in a `u64`.
fn clump_count_plus_tile(clumps: u64, begun: &[u64]) -> Option<u64>
    ensures some { IfSome result (λ all. all ≡ clumps + sum begun.now) }
    ensures none { IfNone result (2 ^ 64 ≤ clumps + sum begun.now) }
{
    let mut all = clumps;
    for row in 0..begun.len() {
        all = all.checked_add(begun[row])?;
    }
    Some(all)
}

/// Adds the number of clumps of a row of tiles, unless the sum does not fit in a `u64`.
pub fn clump_count_plus_tile_row(clumps: u64, row: &[TileBorder]) -> Option<u64>
    ensures some { IfSome result (λ all.
        all ≡ clumps + clump_count_of_tile_row (begun_clump_counts_of_tile_row
        (values_of_tile_borders row.now))) }
    ensures none { IfNone result
        (2 ^ 64 ≤ clumps + clump_count_of_tile_row (begun_clump_counts_of_tile_row
        (values_of_tile_borders row.now))) }
{
    let mut all = clumps;
    for col in 0..row.len() {
        all = clump_count_plus_tile(all, row[col].begun.as_slice())?;
    }
    Some(all)
}

// Returns the number of clumps that begin in a row of a tile.
fn begun_clump_count_in_row_of_tile(begun: &[u64], row: usize) -> u64
    ensures { result ≡ slice_index begun.now row }
{
    match begun.get(row) {
        Some(count) => *count,
        None => 0,
    }
}

// Returns the number of clumps that begin in one row of cells, in all tiles of a row of tiles.
fn begun_clump_count_in_row_of_tiles(tiles: &[TileBorder], row: usize) -> u64
    requires { clump_count_of_tile_row (begun_clump_counts_of_tile_row
        (values_of_tile_borders tiles.now)) < 2 ^ 64 }
    ensures { result ≡ begun_clump_count_in_all_tiles
        (begun_clump_counts_of_tile_row (values_of_tile_borders tiles.now)) row }
{
    let mut all = 0;
    for col in 0..tiles.len() {
        all += begun_clump_count_in_row_of_tile(tiles[col].begun.as_slice(), row);
    }
    all
}

// Returns, for each row of the first tile, the label of the first clump that begins in it. The labels of the row of
// tiles start at `base`.
fn first_clump_labels_by_row(
    alloc: Global,
    base: u64,
    rows: usize,
    tiles: &[TileBorder],
) -> Result<Vec<u64>, Memory>
    requires fits { base + clump_count_of_tile_row (begun_clump_counts_of_tile_row
        (values_of_tile_borders tiles.now)) < 2 ^ 64 }
    requires even { TilesHaveRowCount rows (values_of_tile_borders tiles.now) }
    ensures long { IfOk result (λ firsts. length firsts.items ≡ rows) }
    ensures each { IfOk result (λ firsts.
        AreFirstLabelsOfTileInRow base (begun_clump_counts_of_tile_row
        (values_of_tile_borders tiles.now)) 0 firsts.items) }
{
    let mut firsts = Vec::new(alloc);
    let mut label = base;
    for row in 0..rows {
        firsts.push(label)?;
        label += begun_clump_count_in_row_of_tiles(tiles, row);
    }
    Ok(firsts)
}

// A row of tiles that has been joined in part.
#[derive(Drop)]
pub(crate) struct PartlyJoinedTileRow {
    // The pairs of labels at the seams, including the pairs of the rows above.
    pub(crate) pairs: Vec<(u64, u64)>,
    // The labels of each tile, including the tiles of the rows above.
    pub(crate) tiles: Vec<Vec<LabelRange>>,
    // The first and the last rows of the row's tiles.
    pub(crate) first: Vec<Option<Mark>>,
    pub(crate) last: Vec<Option<Mark>>,
    // The last column of the last tile.
    pub(crate) right: Vec<Option<Mark>>,
}

// Joins the next tile to the tiles on its left.
fn join_tile_to_left_tiles(
    alloc: Global,
    joining: Joining,
    from: PartlyJoinedTileRow,
    firsts: &[u64],
    tile: &TileBorder,
) -> Result<PartlyJoinedTileRow, Memory>
    requires long { length firsts.now ≡ length tile.now.begun.items }
    requires fits { (i : ℕ) → i < length tile.now.begun.items →
        slice_index firsts.now i + slice_index tile.now.begun.items i < 2 ^ 64 }
    requires few { sum tile.now.begun.items < 2 ^ 64 }
    requires fit { TileLabelRangesFitInSixtyFourBits from.tiles.items }
    ensures pairs { IfOk result (λ after. AddsLabelPairs from.pairs.items after.pairs.items
        (label_pairs_of_adjacent_lines joining from.right.items
        (labelled_categories_of_side (label_of_clump_from_first_labels firsts.now
        tile.now.begun.items)
        (sum tile.now.begun.items) (value_of_tile_border tile.now).left))) }
    ensures first { IfOk result (λ after. after.first.items ≡ from.first.items
        ++ labelled_categories_of_side (label_of_clump_from_first_labels firsts.now
        tile.now.begun.items) (sum tile.now.begun.items)
        (value_of_tile_border tile.now).first) }
    ensures last { IfOk result (λ after. after.last.items ≡ from.last.items
        ++ labelled_categories_of_side (label_of_clump_from_first_labels firsts.now
        tile.now.begun.items) (sum tile.now.begun.items)
        (value_of_tile_border tile.now).last) }
    ensures right { IfOk result (λ after. after.right.items
        ≡ labelled_categories_of_side (label_of_clump_from_first_labels firsts.now
        tile.now.begun.items) (sum tile.now.begun.items)
        (value_of_tile_border tile.now).right) }
    ensures tiles { IfOk result (λ after. labels_of_tile_ranges after.tiles.items
        ≡ labels_of_tile_ranges from.tiles.items
        ++ map (label_of_clump_from_first_labels firsts.now tile.now.begun.items)
        (range_with_len 0 (sum tile.now.begun.items)) ∷ []) }
    ensures fit { IfOk result (λ after. TileLabelRangesFitInSixtyFourBits after.tiles.items) }
{
    let PartlyJoinedTileRow {
        mut pairs,
        mut tiles,
        mut first,
        mut last,
        right: before,
    } = from;
    let begun = tile.begun.as_slice();
    let ends = begun_clump_counts_up_to_rows(alloc, begun)?;
    let mut left = Vec::new(alloc);
    add_labelled_categories_of_side(&mut left, firsts, begun, &ends, &tile.left)?;
    add_label_pairs_of_adjacent_lines(&mut pairs, joining, &before, &left)?;
    let mut right = Vec::new(alloc);
    add_labelled_categories_of_side(&mut right, firsts, begun, &ends, &tile.right)?;
    add_labelled_categories_of_side(&mut first, firsts, begun, &ends, &tile.first)?;
    add_labelled_categories_of_side(&mut last, firsts, begun, &ends, &tile.last)?;
    tiles.push(label_ranges_of_tile(alloc, firsts, begun)?)?;
    Ok(PartlyJoinedTileRow {
        pairs,
        tiles,
        first,
        last,
        right,
    })
}

// Joins the tiles of a row from the left. Their labels start at `base`, and all have the same number of rows.
pub(crate) fn join_tiles_of_row(
    alloc: Global,
    joining: Joining,
    from: PartlyJoinedTileRow,
    base: u64,
    rows: usize,
    row: &[TileBorder],
) -> Result<PartlyJoinedTileRow, Memory>
    requires even { TilesHaveRowCount rows (values_of_tile_borders row.now) }
    requires fits { base + clump_count_of_tile_row (begun_clump_counts_of_tile_row
        (values_of_tile_borders row.now)) < 2 ^ 64 }
    requires first { from.first.items ≡ [] }
    requires last { from.last.items ≡ [] }
    requires right { from.right.items ≡ [] }
    requires fit { TileLabelRangesFitInSixtyFourBits from.tiles.items }
    ensures pairs { IfOk result (λ after. AddsLabelPairs from.pairs.items after.pairs.items
        (label_pairs_within_tile_row joining base (values_of_tile_borders row.now)
        (length row.now))) }
    ensures first { IfOk result (λ after.
        after.first.items ≡ labelled_first_rows_of_tiles base (values_of_tile_borders row.now)
        (length row.now)) }
    ensures last { IfOk result (λ after.
        after.last.items ≡ labelled_last_rows_of_tiles base (values_of_tile_borders row.now)
        (length row.now)) }
    ensures tiles { IfOk result (λ after. labels_of_tile_ranges after.tiles.items
        ≡ labels_of_tile_ranges from.tiles.items
        ++ map (labels_of_clumps_in_tile base (begun_clump_counts_of_tile_row
        (values_of_tile_borders row.now)))
        (range_with_len 0 (length row.now))) }
    ensures fit { IfOk result (λ after. TileLabelRangesFitInSixtyFourBits after.tiles.items) }
{
    let mut firsts = first_clump_labels_by_row(alloc, base, rows, row)?;
    let line = firsts.as_mut_slice();
    let mut joined = from;
    for col in 0..row.len() {
        joined = join_tile_to_left_tiles(alloc, joining, joined, line, &row[col])?;
        advance_first_labels_to_next_tile(line, row[col].begun.as_slice());
    }
    Ok(joined)
}
