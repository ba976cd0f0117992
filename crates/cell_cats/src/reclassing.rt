//! Reclassifies maps.

ghost use Rattle.std.specs.Prelude.{◌≡◌, ◌<◌, ◌^◌, length, ℤ, IfOk, OnOk};
ghost use Rattle.std.specs.FinMap.{get};
ghost use Rattle.cell_core.specs.Grid.{empty_category_labels};
ghost use Rattle.cell_core.specs.Runs.{AreMaximalRuns, cells_of_runs};
ghost use Rattle.cell_cats.specs.Rule.{label_of_category};
ghost use Rattle.cell_cats.specs.Reclass.{reclassed_row, labels_of_rules, reclassed_map};
ghost use Rattle.cell_cats.specs.parts.KnownCategories.{AreCachedCategoriesRight, HoldsForRulesOfIntervalsAndCache};

use crate::byte_table::{byte_reclass_table, write_reclassed_bytes};
use crate::known::{Known, cached_new_category, new_cache_of_nulls};
use crate::pieces::RuleOutputIntervals;
use crate::rules::Rules;
use cell_core::cell::Cell;
use cell_core::map::{CellMap, MapBuilder};
use cell_core::memory::Memory;
use cell_core::runs::Runs;
use std::alloc::Global;

// A row with more than one run per this many cells is reclassified cell by cell, because filling short runs takes
// longer.
const MIN_MEAN_RUN_TO_RECLASS_RUNS: usize = 2;

// Writes the runs of the new categories. Adjacent runs that become equal are merged.
fn write_reclassed_runs(
    pieces: &RuleOutputIntervals,
    known: &mut [Known],
    given: Runs<'_>,
    made: &mut Vec<(Cell, u32)>,
) -> Result<(), Memory>
    requires some { 0 < length known.old }
    requires runs { AreMaximalRuns given }
    requires few { length (cells_of_runs given) < 2 ^ 32 }
    ensures row { OnOk result (HoldsForRulesOfIntervalsAndCache pieces.now known.old
        (λ rules. cells_of_runs made.new.items ≡ reclassed_row rules (cells_of_runs given.entry))) }
    ensures runs { OnOk result (AreMaximalRuns made.new.items) }
    ensures right { HoldsForRulesOfIntervalsAndCache pieces.now known.old
        (λ rules. AreCachedCategoriesRight rules known.new) }
{
    let mut given = given;
    made.clear();
    let Some((cell, count)) = given.next() else {
        return Ok(());
    };
    let mut run = (cached_new_category(pieces, known, cell), count);
    for (cell, count) in given {
        let new = cached_new_category(pieces, known, cell);
        if new == run.0 {
            run.1 += count;
        } else {
            made.push(run)?;
            run = (new, count);
        }
    }
    made.push(run)?;
    Ok(())
}

// Replaces each cell with its new category.
fn reclass_row_cells(pieces: &RuleOutputIntervals, known: &mut [Known], row: &mut [Cell])
    requires some { 0 < length known.old }
    ensures row { HoldsForRulesOfIntervalsAndCache pieces.now known.old (λ rules. row.new
        ≡ reclassed_row rules row.old) }
    ensures right { HoldsForRulesOfIntervalsAndCache pieces.now known.old
        (λ rules. AreCachedCategoriesRight rules known.new) }
{
    for i in 0..row.len() {
        row[i] = cached_new_category(pieces, known, row[i]);
    }
}

// Adds the labels of the rules to a map without labels. Later rules override earlier ones.
fn add_labels_of_rules(rules: &Rules, made: &mut CellMap) -> Result<(), Memory>
    requires { made.old.labels ≡ empty_category_labels }
    ensures { OnOk result (made.new ≡ record made.old { labels = labels_of_rules rules.now }) }
{
    for rule in rules.as_slice() {
        if let Some(category) = rule.labelled_category() {
            made.set_label(category, rule.label())?;
        }
    }
    Ok(())
}

// Returns the reclassified map without labels.
fn reclass_cells(alloc: Global, given: &CellMap, rules: &Rules) -> Result<CellMap, Memory>
    ensures { IfOk result (λ made. made
        ≡ record (reclassed_map rules.now given.now) { labels = empty_category_labels }) }
{
    let region = given.region();
    let cells = u64::from(region.rows()) * u64::from(region.cols());
    let pieces = RuleOutputIntervals::of_rules(alloc, rules)?;
    let new_bytes = byte_reclass_table(alloc, &pieces, given)?;
    let table = new_bytes.as_deref();
    let mut places = new_cache_of_nulls(alloc, cells)?;
    let known = places.as_mut_slice();
    let mut cell_buffer = vec![in alloc; Cell::null(); region.cols() as usize]?;
    let row = cell_buffer.as_mut_slice();
    let mut byte_buffer = vec![in alloc; 0u8; region.cols() as usize]?;
    let byte_row = byte_buffer.as_mut_slice();
    let mut new_runs = Vec::new(alloc);
    let mut builder = MapBuilder::new(alloc, region);
    for r in 0..region.rows() {
        if let (Some(table), Some(bytes)) = (table, given.bytes(r)) {
            write_reclassed_bytes(table, bytes, byte_row);
            builder.push_row_of_bytes(byte_row)?;
            continue;
        }
        let runs = given.runs(r);
        if runs.len() > row.len() / MIN_MEAN_RUN_TO_RECLASS_RUNS {
            given.copy_row(r, row);
            reclass_row_cells(&pieces, known, row);
            builder.push_row(row)?;
        } else {
            write_reclassed_runs(&pieces, known, runs, &mut new_runs)?;
            builder.push_row_of_runs(&new_runs)?;
        }
    }
    Ok(builder.finish())
}

/// Returns the map in which each cell has its new category. All labels come from the rules. The ranges of the rules are
/// sorted once, and the time to find the new category of a run grows with the logarithm of their number.
///
/// # Errors
///
/// [`Memory`] if memory runs out.
pub fn reclass(alloc: Global, given: &CellMap, rules: &Rules) -> Result<CellMap, Memory>
    ensures made { IfOk result (λ made. made ≡ reclassed_map rules.now given.now) }
    ensures labels { IfOk result (λ made. (k : ℤ)
        → get made.labels k ≡ label_of_category rules.now k) }
{
    let mut made = reclass_cells(alloc, given, rules)?;
    add_labels_of_rules(rules, &mut made)?;
    Ok(made)
}
