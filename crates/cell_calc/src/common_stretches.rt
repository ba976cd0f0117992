//! Finds the spans of a row: adjacent columns in which no window's row changes.

ghost use Rattle.std.specs.Prelude.{◌≡◌, ◌<◌, ◌≤◌, ◌+◌, ◌^◌, ℕ, length, All, IfOk, IfSome, true};
ghost use Rattle.cell_calc.specs.RowValues.{at};
ghost use Rattle.cell_calc.specs.CommonStretches.{AreCommonSpanWidths, AreWindowsOfFirstSpanCells, centre_row, total_span_width, spread_values_over_spans, span_start_cells};
ghost use Rattle.cell_calc.specs.parts.Columns.{WindowRowIsUnchangedInColumns, WindowRowHasWidth};

use crate::window::RowWindow;
use cell_core::cell::Cell;
use cell_core::memory::Memory;
use cell_core::runs::write_run_to_cells;
use std::alloc::Global;

// Minimum mean length of spans, in columns. With shorter spans, computing a value for each column costs no more.
const MIN_MEAN_SPAN_COLUMNS: usize = 8;

// Number of spans allowed before their mean length counts.
const SPANS_BEFORE_MEAN_IS_CHECKED: usize = 8;

// Number of columns that are inspected first.
const COLUMNS_INSPECTED_FOR_CHANGES: usize = 16;

// Returns the number of cells at the start that equal the first cell.
fn count_cells_equal_to_first(cells: &[Cell]) -> usize
    requires { 0 < length cells.now }
    ensures within { result ≤ length cells.now }
    ensures some { 0 < result }
    ensures alike { (k : ℕ) → k < result → at cells.now k ≡ at cells.now 0 }
{
    for i in 1..cells.len() {
        if cells[i] != cells[0] {
            return i;
        }
    }
    cells.len()
}

// Returns whether at least half of the first cells of a row differ from the previous cell. If so, spans save little.
fn row_begins_with_many_changes(row: &[Cell]) -> bool {
    let columns = row.len().min(COLUMNS_INSPECTED_FOR_CHANGES);
    let mut changes: usize = 0;
    for i in 1..columns {
        if row[i] != row[i - 1] {
            changes = changes.wrapping_add(1);
        }
    }
    changes >= columns / 2
}

/// Returns whether the row of any window starts with many changes. Inspects only a few cells.
pub fn any_row_begins_with_many_changes(windows: &[RowWindow]) -> bool {
    for window in windows {
        if row_begins_with_many_changes(window.centre_row()) {
            return true;
        }
    }
    false
}

// Returns whether the row of each window has `cols` columns.
fn are_window_rows_of_width(windows: &[RowWindow], cols: usize) -> bool
    ensures { result ≡ true → All (WindowRowHasWidth cols) windows.now }
{
    for window in windows {
        if window.centre_row().len() != cols {
            return false;
        }
    }
    true
}

// Returns the number of columns, at most `left`, counted from `from`, in which no row changes.
fn count_columns_without_change(windows: &[RowWindow], from: usize, left: usize) -> usize
    requires wide { All (WindowRowHasWidth (from + left)) windows.now }
    requires some { 0 < left }
    ensures within { result ≤ left }
    ensures some { 0 < result }
    ensures alike { All (WindowRowIsUnchangedInColumns from result) windows.now }
{
    let mut least = left;
    for window in windows {
        let row = window.centre_row();
        least = count_cells_equal_to_first(&row[from..from + least]);
    }
    least
}

/// Returns the widths of the spans in the windows' rows, or `None` if there are many.
///
/// Spans are found in the rows that windows hold, not in the runs of maps, so that the clauses of `eval_row` mention
/// only windows. A search that finds many spans stops near the left end of the row.
///
/// # Errors
///
/// [`Memory`] if memory runs out.
pub fn span_widths_if_few(
    alloc: Global,
    windows: &[RowWindow],
    cols: usize,
) -> Result<Option<Vec<u32>>, Memory>
    requires { cols ≤ 65535 }
    ensures { IfOk result
        (λ found. IfSome found (λ widths. AreCommonSpanWidths cols windows.now widths.items)) }
{
    if !are_window_rows_of_width(windows, cols) {
        return Ok(None);
    }
    let mut widths = Vec::new(alloc);
    let mut from = 0;
    'stretches: while from < cols {
        if widths.len() > SPANS_BEFORE_MEAN_IS_CHECKED + from / MIN_MEAN_SPAN_COLUMNS {
            return Ok(None);
        }
        let width = count_columns_without_change(windows, from, cols - from);
        widths.push(width as u32)?;
        from += width;
    }
    Ok(Some(widths))
}

// Returns the cell of a row at a column, or null past its end.
fn cell_or_null_past_end(row: &[Cell], col: usize) -> Cell
    ensures { result ≡ at row.now col }
{
    match row.get(col) {
        Some(cell) => *cell,
        None => Cell::null(),
    }
}

// Returns the first cell of each span of a row.
fn first_cells_of_spans(alloc: Global, row: &[Cell], widths: &[u32]) -> Result<Vec<Cell>, Memory>
    requires { total_span_width widths.now ≤ 65535 }
    ensures { IfOk result (λ cells. cells.items ≡ span_start_cells row.now widths.now) }
{
    let mut cells = Vec::with_capacity(alloc, widths.len())?;
    let mut from: usize = 0;
    for width in widths {
        cells.push(cell_or_null_past_end(row, from))?;
        from += *width as usize;
    }
    Ok(cells)
}

/// Returns windows that hold only the first cell of each span.
///
/// # Errors
///
/// [`Memory`] if memory runs out.
pub fn windows_of_first_span_cells(
    alloc: Global,
    windows: &[RowWindow],
    widths: &[u32],
) -> Result<Vec<RowWindow>, Memory>
    requires all { total_span_width widths.now ≤ 65535 }
    requires few { length widths.now ≤ 65535 }
    ensures { IfOk result (λ short. AreWindowsOfFirstSpanCells widths.now windows.now short.items) }
{
    let mut short = Vec::with_capacity(alloc, windows.len())?;
    for window in windows {
        let cells = first_cells_of_spans(alloc, window.centre_row(), widths)?;
        short.push(RowWindow::of_row(alloc, cells)?)?;
    }
    Ok(short)
}

/// Writes the value of each span to its columns.
pub fn spread_values_over_spans(values: &[Cell], widths: &[u32], cells: &mut [Cell])
    requires values { length values.now ≡ length widths.now }
    requires width { length cells.old ≡ total_span_width widths.now }
    ensures { cells.new ≡ spread_values_over_spans values.now widths.now }
{
    let mut at = 0;
    for i in 0..widths.len() {
        write_run_to_cells(cells, at, (values[i], widths[i]));
        at += widths[i] as usize;
    }
}
