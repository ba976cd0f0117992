//! Reads the head of a map in a request: everything before its cells.

ghost use Rattle.std.specs.Prelude.{ℕ, ◌≡◌, List, [], length, ◌≤◌, IfOk, All, false};
ghost use Rattle.rcell_pipe_request.specs.RequestFields.{reading_repeated_n_times};
ghost use Rattle.rcell_pipe_request.specs.Feeds.{left, ReadsRequestFieldAndStaysOpen};
ghost use Rattle.rcell_pipe_request.specs.Heads.{map_name_reading, new_map_name_reading, nodata_if_valid, format_flags_reading, raw_format_reading, number_format_reading, text_flags_reading, text_nodata_reading, text_format_reading, map_format_reading, has_line_feed, is_bad_label, IsGoodLabel, next_label_reading, label_reading, labels_reading, map_head_reading, label_as_value, labels_as_values, map_head_as_value};

use crate::error::{ErrorKind, FieldReadingStop};
use crate::feed::{
    Feed, read_i32, read_i64, read_text_with_u8_length, read_text_with_u16_length, read_u8,
    read_u32,
};
use cell_core::name::{Name, NameFault};
use cell_core::shelf::Shelf;
use rcell_pipe_rows::kind::CellType;
use std::alloc::Global;
use std::io::Read;

// The code of the type of a text grid.
const TEXT_GRID_CODE: u8 = 8;

/// The format of a map's rows: the type of the numbers, the number that denotes null, and whether each row has a mask.
#[derive(Clone, Copy, Debug)]
pub struct RawFormat {
    pub kind: CellType,
    pub nodata: Option<i64>,
    pub is_masked: bool,
}

/// How the cells of a map are sent.
#[derive(Clone, Copy, Debug)]
pub enum MapFormat {
    /// As rows of numbers.
    Numbers(RawFormat),
    /// As the text of a grid.
    Text,
}

/// A category and its label.
#[derive(Debug, Drop)]
pub struct CategoryLabel {
    pub category: i32,
    pub text: Vec<u8>,
}

/// The name, format and labels of a map.
#[derive(Debug, Drop)]
pub struct MapHead {
    pub name: Name,
    pub format: MapFormat,
    pub labels: Vec<CategoryLabel>,
}

/// Reads a map name.
#[tactic(auto, unfolding(crate::specs::Heads::map_name_reading))]
pub fn read_map_name<R: Read>(alloc: Global, feed: &mut Feed<R>) -> Result<Name, FieldReadingStop>
    ensures { ReadsRequestFieldAndStaysOpen (λ name. name) feed.old result feed.new
        map_name_reading }
{
    let text = read_text_with_u8_length(alloc, feed)?;
    match Name::read(alloc, &text) {
        Ok(name) => Ok(name),
        Err(NameFault::BadName) => Err(FieldReadingStop::Error(ErrorKind::BadName)),
        Err(NameFault::Memory) => Err(FieldReadingStop::Memory),
    }
}

// Reads a name that differs from the names of the previous maps.
#[tactic(auto, unfolding(crate::specs::Heads::new_map_name_reading))]
fn read_new_map_name<R: Read>(
    alloc: Global,
    feed: &mut Feed<R>,
    shelf: &Shelf,
) -> Result<Name, FieldReadingStop>
    ensures { ReadsRequestFieldAndStaysOpen (λ name. name) feed.old result feed.new
        (new_map_name_reading shelf.now.names) }
{
    let name = read_map_name(alloc, feed)?;
    if shelf.find(name.bytes()).is_some() {
        return Err(FieldReadingStop::Error(ErrorKind::NameTwice));
    }
    Ok(name)
}

// Returns the number that denotes null, if any. Returns `None` if it is invalid: the type cannot represent it, or it is
// not 0 although flag 1 is not set.
fn nodata_if_valid(kind: CellType, flags: u8, number: i64) -> Option<Option<i64>>
    ensures { result ≡ nodata_if_valid kind flags number }
{
    if flags == 1 || flags == 3 {
        return if kind.has(number) {
            Some(Some(number))
        } else {
            None
        };
    }
    if number == 0 { Some(None) } else { None }
}

#[tactic(auto, unfolding(crate::specs::Heads::format_flags_reading))]
fn read_format_flags<R: Read>(feed: &mut Feed<R>) -> Result<u8, FieldReadingStop>
    ensures { ReadsRequestFieldAndStaysOpen (λ flags. flags) feed.old result feed.new
        format_flags_reading }
{
    let flags = read_u8(feed)?;
    if flags > 3 {
        return Err(FieldReadingStop::Error(ErrorKind::BadFlags));
    }
    Ok(flags)
}

// Reads the format of rows whose numbers have this type.
#[tactic(auto, unfolding(crate::specs::Heads::raw_format_reading))]
fn read_raw_format<R: Read>(
    feed: &mut Feed<R>,
    kind: CellType,
) -> Result<RawFormat, FieldReadingStop>
    ensures { ReadsRequestFieldAndStaysOpen (λ format. format) feed.old result feed.new
        (raw_format_reading kind) }
{
    let flags = read_format_flags(feed)?;
    let number = read_i64(feed)?;
    match nodata_if_valid(kind, flags, number) {
        Some(nodata) => Ok(RawFormat {
            kind,
            nodata,
            is_masked: 2 <= flags,
        }),
        None => Err(FieldReadingStop::Error(ErrorKind::BadNodata)),
    }
}

// Reads the format of rows of numbers after the code of their type.
#[tactic(auto, unfolding(crate::specs::Heads::number_format_reading))]
fn read_number_format<R: Read>(feed: &mut Feed<R>, code: u8) -> Result<MapFormat, FieldReadingStop>
    ensures { ReadsRequestFieldAndStaysOpen (λ format. format) feed.old result feed.new
        (number_format_reading code) }
{
    match CellType::of_code(code) {
        Some(kind) => {
            let format = read_raw_format(feed, kind)?;
            Ok(MapFormat::Numbers(format))
        }
        None => Err(FieldReadingStop::Error(ErrorKind::BadType)),
    }
}

// Reads the flags of a text grid, which must be 0.
#[tactic(auto, unfolding(crate::specs::Heads::text_flags_reading))]
fn read_text_flags<R: Read>(feed: &mut Feed<R>) -> Result<u8, FieldReadingStop>
    ensures { ReadsRequestFieldAndStaysOpen (λ flags. flags) feed.old result feed.new
        text_flags_reading }
{
    let flags = read_u8(feed)?;
    if flags != 0 {
        return Err(FieldReadingStop::Error(ErrorKind::BadFlags));
    }
    Ok(flags)
}

// Reads the nodata value of a text grid, which must be 0.
#[tactic(auto, unfolding(crate::specs::Heads::text_nodata_reading))]
fn read_text_nodata<R: Read>(feed: &mut Feed<R>) -> Result<i64, FieldReadingStop>
    ensures { ReadsRequestFieldAndStaysOpen (λ number. number) feed.old result feed.new
        text_nodata_reading }
{
    let number = read_i64(feed)?;
    if number != 0 {
        return Err(FieldReadingStop::Error(ErrorKind::BadNodata));
    }
    Ok(number)
}

// Reads what follows the type of a text grid.
#[tactic(auto, unfolding(crate::specs::Heads::text_format_reading))]
fn read_text_format<R: Read>(feed: &mut Feed<R>) -> Result<MapFormat, FieldReadingStop>
    ensures { ReadsRequestFieldAndStaysOpen (λ format. format) feed.old result feed.new
        text_format_reading }
{
    let _flags = read_text_flags(feed)?;
    let _number = read_text_nodata(feed)?;
    Ok(MapFormat::Text)
}

#[tactic(auto, unfolding(crate::specs::Heads::map_format_reading))]
fn read_map_format<R: Read>(feed: &mut Feed<R>) -> Result<MapFormat, FieldReadingStop>
    ensures { ReadsRequestFieldAndStaysOpen (λ format. format) feed.old result feed.new
        map_format_reading }
{
    let code = read_u8(feed)?;
    if code == TEXT_GRID_CODE {
        read_text_format(feed)
    } else {
        read_number_format(feed, code)
    }
}

// Returns whether a text contains a line feed.
fn has_line_feed(text: &[u8]) -> bool
    ensures { result ≡ has_line_feed text.now }
{
    text.iter().any(|byte| *byte == b'\n')
}

// Returns whether a label is invalid: its number is not a category, or its text contains a line feed.
fn is_bad_label(category: i32, text: &[u8]) -> bool
    ensures { result ≡ is_bad_label category text.now }
{
    category == i32::MIN || has_line_feed(text)
}

#[tactic(auto, unfolding(crate::specs::Heads::label_reading))]
fn read_label<R: Read>(alloc: Global, feed: &mut Feed<R>) -> Result<CategoryLabel, FieldReadingStop>
    ensures reads { ReadsRequestFieldAndStaysOpen label_as_value feed.old result feed.new
        label_reading }
    ensures good { IfOk result IsGoodLabel }
{
    let category = read_i32(feed)?;
    let text = read_text_with_u16_length(alloc, feed)?;
    if is_bad_label(category, &text) {
        return Err(FieldReadingStop::Error(ErrorKind::BadLabel));
    }
    Ok(CategoryLabel { category, text })
}

// Reads one more label.
#[tactic(auto, unfolding(crate::specs::Heads::next_label_reading))]
fn read_next_label<R: Read>(
    alloc: Global,
    feed: &mut Feed<R>,
    labels: &mut Vec<CategoryLabel>,
) -> Result<(), FieldReadingStop>
    ensures reads { ReadsRequestFieldAndStaysOpen
        (λ _. labels_as_values labels.new.items) feed.old result feed.new
        (next_label_reading (labels_as_values labels.old.items)) }
    ensures good { All IsGoodLabel labels.old.items → All IsGoodLabel labels.new.items }
{
    let label = read_label(alloc, feed)?;
    labels.push(label)?;
    Ok(())
}

// Reads `count` labels.
fn read_given_number_of_labels<R: Read>(
    alloc: Global,
    feed: &mut Feed<R>,
    count: u32,
) -> Result<Vec<CategoryLabel>, FieldReadingStop>
    ensures reads { ReadsRequestFieldAndStaysOpen
        (λ labels. labels_as_values labels.items) feed.old result feed.new
        (reading_repeated_n_times next_label_reading [] count) }
    ensures good { IfOk result (λ labels. All IsGoodLabel labels.items) }
{
    let mut labels = Vec::new(alloc);
    for i in 0..count {
        match read_next_label(alloc, feed, &mut labels) {
            Ok(()) => {}
            Err(stop) => return Err(stop),
        }
    }
    Ok(labels)
}

#[tactic(auto, unfolding(crate::specs::Heads::labels_reading))]
fn read_label_count_and_labels<R: Read>(
    alloc: Global,
    feed: &mut Feed<R>,
) -> Result<Vec<CategoryLabel>, FieldReadingStop>
    ensures reads { ReadsRequestFieldAndStaysOpen
        (λ labels. labels_as_values labels.items) feed.old result feed.new
        labels_reading }
    ensures good { IfOk result (λ labels. All IsGoodLabel labels.items) }
{
    let count = read_u32(feed)?;
    read_given_number_of_labels(alloc, feed, count)
}

/// Reads everything before the cells of a map. The shelf contains the previous maps.
#[tactic(auto, unfolding(crate::specs::Heads::map_head_reading))]
pub fn read_map_head<R: Read>(
    alloc: Global,
    feed: &mut Feed<R>,
    shelf: &Shelf,
) -> Result<MapHead, FieldReadingStop>
    ensures reads { ReadsRequestFieldAndStaysOpen map_head_as_value feed.old result feed.new
        (map_head_reading shelf.now.names) }
    ensures good { IfOk result (λ head. All IsGoodLabel head.labels.items) }
{
    let name = read_new_map_name(alloc, feed, shelf)?;
    let format = read_map_format(feed)?;
    let labels = read_label_count_and_labels(alloc, feed)?;
    Ok(MapHead {
        name,
        format,
        labels,
    })
}
