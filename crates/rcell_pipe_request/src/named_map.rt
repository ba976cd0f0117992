//! Reads a map of a request: its head and its cells.

ghost use Rattle.std.specs.Prelude.{◌≡◌, ◌+◌, ◌*◌, ◌<◌, [], length, true, Ok, OnOk, All};
ghost use Rattle.std.specs.FinMap.{insert};
ghost use Rattle.rcell_pipe_rows.specs.Numbers.{byte_size_of_cell_type};
ghost use Rattle.rcell_pipe_rows.specs.PackedRows.{cells_of_maybe_packed_row};
ghost use Rattle.rcell_pipe_request.specs.RequestFields.{reading_repeated_n_times};
ghost use Rattle.rcell_pipe_request.specs.Feeds.{ReadsRequestFieldAndStaysOpen, ReadsWithErrorPosition};
ghost use Rattle.rcell_pipe_request.specs.Heads.{IsGoodLabel, labels_as_values};
ghost use Rattle.rcell_pipe_request.specs.Rows.{mask_size_of_row, row_cells_reading, error_kind_of_row_error};
ghost use Rattle.rcell_pipe_request.specs.Requests.{next_row_reading, label_map_with_added_labels, number_map_reading, map_cells_reading, map_reading, named_map_as_value};

use crate::error::{ErrorKind, FieldReadingStop, RequestStop};
use crate::feed::{Feed, read_bytes_into};
use crate::head::{CategoryLabel, MapFormat, MapHead, RawFormat, read_map_head};
use crate::text_map::read_text_map;
use cell_core::cell::Cell;
use cell_core::map::{CellMap, MapBuilder};
use cell_core::memory::Memory;
use cell_core::name::Name;
use cell_core::region::Region;
use cell_core::shelf::Shelf;
use rcell_pipe_rows::packed_row::pack_row_or_write_cells;
use rcell_pipe_rows::raw_row::RowError;
use std::alloc::Global;
use std::io::Read;

/// A map and its name.
#[derive(Debug, Drop)]
pub struct NamedMap {
    pub name: Name,
    pub map: CellMap,
}

fn error_kind_of_row_error(error: RowError) -> ErrorKind
    ensures { result ≡ error_kind_of_row_error error }
{
    match error {
        RowError::BadMask => ErrorKind::BadMask,
        RowError::OutOfRange => ErrorKind::CellRange,
    }
}

// Reads a row's numbers and mask into buffers. Packs the cells into their bytes if possible; otherwise writes them to
// `cells`.
#[tactic(auto, unfolding(crate::specs::Rows::row_cells_reading))]
fn read_row_into_bytes_or_cells<R: Read>(
    feed: &mut Feed<R>,
    format: RawFormat,
    bytes: &mut [u8],
    mask: &mut [u8],
    cells: &mut [Cell],
) -> Result<bool, FieldReadingStop>
    requires bytes { length bytes.old ≡ length cells.old * byte_size_of_cell_type format.kind }
    requires mask { length mask.old ≡ mask_size_of_row format (length cells.old) }
    ensures reads { ReadsRequestFieldAndStaysOpen
        (λ packed. cells_of_maybe_packed_row packed bytes.new cells.new)
        feed.old result feed.new (row_cells_reading format (length cells.old)) }
    ensures packed { result ≡ Ok true → length bytes.new ≡ length cells.old }
    ensures width { length cells.new ≡ length cells.old }
    ensures bytes { length bytes.new ≡ length bytes.old }
    ensures mask { length mask.new ≡ length mask.old }
{
    read_bytes_into(feed, bytes)?;
    read_bytes_into(feed, mask)?;
    match pack_row_or_write_cells(format.kind, format.nodata, mask, bytes, cells) {
        Ok(packed) => Ok(packed),
        Err(error) => Err(FieldReadingStop::Error(error_kind_of_row_error(error))),
    }
}

// Reads one more row.
#[tactic(auto, unfolding(crate::specs::Requests::next_row_reading))]
fn push_row<R: Read>(
    feed: &mut Feed<R>,
    maps: u32,
    format: RawFormat,
    builder: &mut MapBuilder,
    row: u32,
    bytes: &mut [u8],
    mask: &mut [u8],
    cells: &mut [Cell],
) -> Result<(), RequestStop>
    requires bytes { length bytes.old ≡ length cells.old * byte_size_of_cell_type format.kind }
    requires mask { length mask.old ≡ mask_size_of_row format (length cells.old) }
    requires width { length cells.old ≡ builder.old.region.cols }
    requires row { row ≡ length builder.old.rows + 1 }
    requires room { length builder.old.rows < builder.old.region.rows }
    ensures reads { ReadsWithErrorPosition (λ _. builder.new.rows) feed.old result feed.new
        (next_row_reading maps format (length cells.old) builder.old.rows) }
    ensures region { builder.new.region ≡ builder.old.region }
    ensures count { OnOk result (length builder.new.rows ≡ length builder.old.rows + 1) }
    ensures width { length cells.new ≡ length cells.old }
    ensures bytes { length bytes.new ≡ length bytes.old }
    ensures mask { length mask.new ≡ length mask.old }
{
    let pushed = match read_row_into_bytes_or_cells(feed, format, bytes, mask, cells) {
        Ok(true) => builder.push_row_of_bytes(bytes),
        Ok(false) => builder.push_row(cells),
        Err(stop) => return Err(stop.at(maps, u64::from(row))),
    };
    match pushed {
        Ok(()) => Ok(()),
        Err(_) => Err(RequestStop::Memory),
    }
}

// Reads all rows.
fn read_all_rows<R: Read>(
    feed: &mut Feed<R>,
    maps: u32,
    format: RawFormat,
    builder: &mut MapBuilder,
    rows: u32,
    bytes: &mut [u8],
    mask: &mut [u8],
    cells: &mut [Cell],
) -> Result<(), RequestStop>
    requires bytes { length bytes.old ≡ length cells.old * byte_size_of_cell_type format.kind }
    requires mask { length mask.old ≡ mask_size_of_row format (length cells.old) }
    requires width { length cells.old ≡ builder.old.region.cols }
    requires rows { rows ≡ builder.old.region.rows }
    requires none { builder.old.rows ≡ [] }
    ensures reads { ReadsWithErrorPosition (λ _. builder.new.rows) feed.old result feed.new
        (reading_repeated_n_times (next_row_reading maps format (length cells.old)) [] rows) }
    ensures region { builder.new.region ≡ builder.old.region }
    ensures count { OnOk result (length builder.new.rows ≡ rows) }
{
    for i in 0..rows {
        match push_row(feed, maps, format, builder, i + 1, bytes, mask, cells) {
            Ok(()) => {}
            Err(stop) => return Err(stop),
        }
    }
    Ok(())
}

// Reads the rows into a map without labels.
#[tactic(auto, unfolding(crate::specs::Requests::number_map_reading))]
fn read_rows_into_map<R: Read>(
    alloc: Global,
    feed: &mut Feed<R>,
    maps: u32,
    format: RawFormat,
    region: Region,
) -> Result<CellMap, RequestStop>
    ensures { ReadsWithErrorPosition (λ map. map) feed.old result feed.new
        (number_map_reading region maps format) }
{
    let cols = region.cols() as usize;
    let mut bytes = vec![in alloc; 0u8; cols * format.kind.size()]?;
    let mut mask = vec![in alloc; 0u8; if format.is_masked { cols } else { 0 }]?;
    let mut cells = vec![in alloc; Cell::null(); cols]?;
    let mut builder = MapBuilder::new(alloc, region);
    match read_all_rows(
        feed,
        maps,
        format,
        &mut builder,
        region.rows(),
        bytes.as_mut_slice(),
        mask.as_mut_slice(),
        cells.as_mut_slice(),
    ) {
        Ok(()) => Ok(builder.finish()),
        Err(stop) => Err(stop),
    }
}

// Reads the cells into a map without labels.
fn read_cells_into_map<R: Read>(
    alloc: Global,
    feed: &mut Feed<R>,
    maps: u32,
    format: MapFormat,
    region: Region,
) -> Result<CellMap, RequestStop>
    ensures { ReadsWithErrorPosition (λ map. map) feed.old result feed.new
        (map_cells_reading region maps format) }
{
    match format {
        MapFormat::Numbers(numbers) => read_rows_into_map(alloc, feed, maps, numbers, region),
        MapFormat::Text => read_text_map(alloc, feed, maps, region),
    }
}

// Sets the label of a category.
fn set_label(map: &mut CellMap, label: &CategoryLabel) -> Result<(), Memory>
    requires { IsGoodLabel label.now }
    ensures { OnOk result (map.new ≡ record map.old {
      labels = insert map.old.labels label.now.category label.now.text.items;
    }) }
{
    map.set_label(label.category, &label.text)
}

// Sets the labels of a map, in order.
fn set_labels(map: &mut CellMap, labels: &[CategoryLabel]) -> Result<(), Memory>
    requires { All IsGoodLabel labels.now }
    ensures { OnOk result (map.new ≡ record map.old {
      labels = label_map_with_added_labels map.old.labels (labels_as_values labels.now);
    }) }
{
    for label in labels {
        match set_label(map, label) {
            Ok(()) => {}
            Err(_) => return Err(Memory),
        }
    }
    Ok(())
}

/// Reads a map of the shelf's region, and its name. The shelf contains the previous maps.
#[tactic(auto, unfolding(crate::specs::Requests::map_reading))]
pub fn read_named_map<R: Read>(
    alloc: Global,
    feed: &mut Feed<R>,
    shelf: &Shelf,
) -> Result<NamedMap, RequestStop>
    requires { length shelf.now.names < 65536 }
    ensures { ReadsWithErrorPosition named_map_as_value feed.old result feed.new
        (map_reading shelf.now) }
{
    let maps = shelf.len() as u32;
    let head = match read_map_head(alloc, feed, shelf) {
        Ok(head) => head,
        Err(stop) => return Err(stop.at(maps, 0)),
    };
    let MapHead {
        name,
        format,
        labels,
    } = head;
    let mut map = match read_cells_into_map(alloc, feed, maps, format, shelf.region()) {
        Ok(map) => map,
        Err(stop) => return Err(stop),
    };
    match set_labels(&mut map, &labels) {
        Ok(()) => Ok(NamedMap { name, map }),
        Err(_) => Err(RequestStop::Memory),
    }
}
