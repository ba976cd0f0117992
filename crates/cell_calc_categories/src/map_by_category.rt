//! Computes maps whose values depend only on the category of one cell: each category's value is computed once and then
//! looked up for each cell.

ghost use Rattle.std.specs.Prelude.{◌≡◌, ◌<◌, ◌≤◌, ◌+◌, ℕ, List, [], ◌∷◌, ◌++◌, length, map, All, Some, IfOk, OnOk, IfSome, slice_get, slice_index_or};
ghost use Rattle.cell_core.specs.Grid.{Grid, CellValue, row_at, empty_category_labels};
ghost use Rattle.cell_core.specs.Runs.{cells_of_runs};
ghost use Rattle.cell_core_values.specs.SmallCells.{cell_of_stored_byte, cells_of_bytes};
ghost use Rattle.cell_calc.specs.ByCategory.{DependsOnlyOnCategory, formula_value_for_first_map_cell};
ghost use Rattle.cell_calc.specs.RowValues.{at};
ghost use Rattle.cell_calc_categories.specs.MapValues.{MapHasExpressionValues};
ghost use Rattle.cell_calc_categories.specs.parts.CategorySpans.{IsValidCategoryInterval, IsCellInCategoryInterval, IsTablePlaceOfCell, IsTableSizeOfInterval};
ghost use Rattle.cell_calc_categories.specs.parts.ValueTables.{IsTableOfFunctionValues, AreValueBytesOfByteCells, rows_with_function_applied};

use crate::span::{CategoryInterval, category_interval_of_map};
use cell_calc::by_category::{expression_values_for_cells, is_faster_by_category_lookup};
use cell_calc_language::bound::Bound;
use cell_core::cell::Cell;
use cell_core::map::{CellMap, MapBuilder};
use cell_core::memory::Memory;
use cell_core::region::Region;
use cell_core::runs::write_run_to_cells;
use cell_core::stretches::RunsOrCells;
use cell_core_values::small_cells::{bytes_of_cells, cell_of_byte, cells_fit_in_bytes};
use std::alloc::Global;

// Number of different bytes.
const DIFFERENT_BYTES: usize = 256;

// Returns `width` categories of a span as cells, starting at index `from`.
fn cells_of_category_interval(
    alloc: Global,
    span: CategoryInterval,
    from: usize,
    width: usize,
) -> Result<Vec<Cell>, Memory>
    requires span { IsValidCategoryInterval span }
    requires places { (n : ℕ) → IsTableSizeOfInterval span n → from + width ≤ n }
    ensures width { IfOk result (λ cells. length cells.items ≡ width) }
    ensures at { IfOk result
        (λ cells. (i : ℕ) → i < width → IsTablePlaceOfCell span (from + i) (at cells.items i)) }
    ensures within { IfOk result
        (λ cells. (i : ℕ) → i < width → IsCellInCategoryInterval span (at cells.items i)) }
{
    let _size = span.size();
    let mut cells = Vec::with_capacity(alloc, width)?;
    for i in 0..width {
        cells.push(span.cell(from + i))?;
    }
    Ok(cells)
}

// Returns the value of an expression for every cell in a span.
fn values_for_category_interval(
    alloc: Global,
    bound: &Bound,
    region: Region,
    span: CategoryInterval,
) -> Result<Vec<Cell>, Memory>
    requires by_category { DependsOnlyOnCategory bound.now }
    requires span { IsValidCategoryInterval span }
    ensures size { IfOk result (λ table. IsTableSizeOfInterval span (length table.items)) }
    ensures table { IfOk result
        (λ table. IsTableOfFunctionValues (formula_value_for_first_map_cell region bound.now) span
        table.items) }
{
    let size = span.size();
    let cols = region.cols() as usize;
    let mut table = Vec::with_capacity(alloc, size)?;
    let mut from = 0;
    'parts: while from < size {
        let width = cols.min(size - from);
        let cells = cells_of_category_interval(alloc, span, from, width)?;
        let values = expression_values_for_cells(alloc, bound, region, cells)?;
        table.extend_from_slice(values.as_slice())?;
        from += width;
    }
    Ok(table)
}

// Replaces each cell with its value in a table.
#[inline(never)]
fn replace_cells_by_table_values(span: CategoryInterval, table: &[Cell], cells: &mut [Cell])
    requires span { IsValidCategoryInterval span }
    requires size { IsTableSizeOfInterval span (length table.now) }
    requires within { All (IsCellInCategoryInterval span) cells.old }
    ensures { (f : CellValue → CellValue) → IsTableOfFunctionValues f span table.now
        → cells.new ≡ map f cells.old }
{
    for i in 0..cells.len() {
        cells[i] = table[span.place(cells[i])];
    }
}

// Writes the values of stretches into a slice of their total length.
fn write_values_of_stretches(
    span: CategoryInterval,
    table: &[Cell],
    stretches: RunsOrCells<'_>,
    cells: &mut [Cell],
)
    requires span { IsValidCategoryInterval span }
    requires size { IsTableSizeOfInterval span (length table.now) }
    requires within { All (IsCellInCategoryInterval span) (cells_of_runs stretches) }
    requires some { All (λ run. 0 < run.1) stretches }
    requires width { length cells.old ≡ length (cells_of_runs stretches) }
    ensures { (f : CellValue → CellValue) → IsTableOfFunctionValues f span table.now
        → cells.new ≡ map f (cells_of_runs stretches.entry) }
{
    let mut at = 0;
    for (cell, count) in stretches {
        write_run_to_cells(cells, at, (table[span.place(cell)], count));
        at += count as usize;
    }
}

// Writes the values of a map's row. Only rows stored as runs are processed run by run.
fn write_values_of_row(
    span: CategoryInterval,
    table: &[Cell],
    given: &CellMap,
    row: u32,
    cells: &mut [Cell],
)
    requires span { IsValidCategoryInterval span }
    requires size { IsTableSizeOfInterval span (length table.now) }
    requires row { row < given.now.region.rows }
    requires within { All (IsCellInCategoryInterval span) (row_at given.now row) }
    requires width { length cells.old ≡ given.now.region.cols }
    ensures { (f : CellValue → CellValue) → IsTableOfFunctionValues f span table.now
        → cells.new ≡ map f (row_at given.now row) }
{
    if given.bytes(row).is_some() || given.cells(row).is_some() {
        given.copy_row(row, cells);
        replace_cells_by_table_values(span, table, cells);
    } else {
        write_values_of_stretches(span, table, given.stretches(row), cells);
    }
}

// Returns the cells that bytes stand for, in the order of the bytes.
fn cells_of_all_bytes(alloc: Global) -> Result<Vec<Cell>, Memory>
    ensures count { IfOk result (λ cells. length cells.items ≡ 256) }
    ensures each { IfOk result (λ cells. (b : ℕ) → b < 256
        → at cells.items b ≡ cell_of_stored_byte b) }
{
    let mut cells = Vec::with_capacity(alloc, DIFFERENT_BYTES)?;
    for byte in 0..DIFFERENT_BYTES {
        cells.push(cell_of_byte(byte as u8))?;
    }
    Ok(cells)
}

// Returns the bytes of the values of cells stored as bytes, if every such value has a byte.
fn value_bytes_of_byte_cells(
    alloc: Global,
    span: CategoryInterval,
    table: &[Cell],
) -> Result<Option<Vec<u8>>, Memory>
    requires span { IsValidCategoryInterval span }
    requires size { IsTableSizeOfInterval span (length table.now) }
    ensures bytes { IfOk result (λ found. IfSome found (λ bytes. (f : CellValue → CellValue)
        → IsTableOfFunctionValues f span table.now → AreValueBytesOfByteCells f bytes.items)) }
    ensures size { IfOk result (λ found. IfSome found (λ bytes. length bytes.items ≡ 256)) }
{
    let mut buffer = cells_of_all_bytes(alloc)?;
    let cells = buffer.as_mut_slice();
    replace_cells_by_table_values(span, table, cells);
    if !cells_fit_in_bytes(cells) {
        return Ok(None);
    }
    let bytes = bytes_of_cells(alloc, cells)?;
    Ok(Some(bytes))
}

// Looks up each byte in a table and writes the results into a slice of the same length. It is a separate call so that
// the table's address stays in a register.
#[inline(never)]
fn write_bytes_from_table(table: &[u8], bytes: &[u8], values: &mut [u8])
    requires table { length table.now ≡ 256 }
    requires width { length values.old ≡ length bytes.now }
    ensures { (f : CellValue → CellValue) → AreValueBytesOfByteCells f table.now
        → cells_of_bytes values.new ≡ map f (cells_of_bytes bytes.now) }
{
    for i in 0..values.len() {
        values[i] = table[bytes[i] as usize];
    }
}

// Appends the values of a map's row to another map, as bytes if the row and its values have bytes.
fn push_values_of_row(
    builder: &mut MapBuilder,
    given: &CellMap,
    row: u32,
    span: CategoryInterval,
    table: &[Cell],
    small: &Option<Vec<u8>>,
    bytes: &mut [u8],
    cells: &mut [Cell],
) -> Result<(), Memory>
    requires span { IsValidCategoryInterval span }
    requires size { IsTableSizeOfInterval span (length table.now) }
    requires small { IfSome small.now (λ b. length b.items ≡ 256) }
    requires row { row < given.now.region.rows }
    requires within { All (IsCellInCategoryInterval span) (row_at given.now row) }
    requires region { builder.old.region ≡ given.now.region }
    requires room { length builder.old.rows < given.now.region.rows }
    requires bytes { length bytes.old ≡ given.now.region.cols }
    requires cells { length cells.old ≡ given.now.region.cols }
    ensures region { OnOk result (builder.new.region ≡ given.now.region) }
    ensures count { OnOk result (length builder.new.rows ≡ length builder.old.rows + 1) }
    ensures row { OnOk result ((f : CellValue → CellValue)
        → IsTableOfFunctionValues f span table.now
        → IfSome small.now (λ b. AreValueBytesOfByteCells f b.items)
        → builder.new.rows ≡ builder.old.rows ++ map f (row_at given.now row) ∷ []) }
{
    if let Some(values) = small {
        if let Some(kept) = given.bytes(row) {
            write_bytes_from_table(values.as_slice(), kept, bytes);
            return builder.push_row_of_bytes(bytes);
        }
    }
    write_values_of_row(span, table, given, row, cells);
    builder.push_row(cells)
}

// Returns the map whose cells have the values in a table.
fn map_of_table_values(
    alloc: Global,
    given: &CellMap,
    span: CategoryInterval,
    table: &[Cell],
    small: &Option<Vec<u8>>,
) -> Result<CellMap, Memory>
    requires span { IsValidCategoryInterval span }
    requires size { IsTableSizeOfInterval span (length table.now) }
    requires small { IfSome small.now (λ b. length b.items ≡ 256) }
    requires within { (row : ℕ) → row < given.now.region.rows
        → All (IsCellInCategoryInterval span) (row_at given.now row) }
    ensures region { IfOk result (λ made. made.region ≡ given.now.region) }
    ensures labels { IfOk result (λ made. made.labels ≡ empty_category_labels) }
    ensures rows { IfOk result (λ made. (f : CellValue → CellValue)
        → IsTableOfFunctionValues f span table.now
        → IfSome small.now (λ b. AreValueBytesOfByteCells f b.items)
        → made.rows ≡ rows_with_function_applied f given.now.rows) }
{
    let region = given.region();
    let cols = region.cols() as usize;
    let mut bytes_buffer = vec![in alloc; 0; cols]?;
    let bytes = bytes_buffer.as_mut_slice();
    let mut cells_buffer = vec![in alloc; Cell::null(); cols]?;
    let cells = cells_buffer.as_mut_slice();
    let mut builder = MapBuilder::new(alloc, region);
    for row in 0..region.rows() {
        push_values_of_row(&mut builder, given, row, span, table, small, bytes, cells)?;
    }
    Ok(builder.finish())
}

/// Returns the map of an expression's values, if the expression reads only the first map, each value depends only on
/// the category of the cell itself, and a table of values costs less than computing each value.
///
/// # Errors
///
/// [`Memory`] if memory runs out.
pub fn expression_map_by_category(
    alloc: Global,
    bound: &Bound,
    given: &CellMap,
) -> Result<Option<CellMap>, Memory>
    ensures { IfOk result (λ found. IfSome found (λ made. (maps : List Grid)
        → slice_get maps 0 ≡ Some given.now → MapHasExpressionValues bound.now given.now.region maps
        made)) }
{
    let region = given.region();
    if !is_faster_by_category_lookup(bound) {
        return Ok(None);
    }
    let Some(span) = category_interval_of_map(given) else {
        return Ok(None);
    };
    let table = values_for_category_interval(alloc, bound, region, span)?;
    let values = table.as_slice();
    let small = value_bytes_of_byte_cells(alloc, span, values)?;
    let made = map_of_table_values(alloc, given, span, values, &small)?;
    Ok(Some(made))
}
