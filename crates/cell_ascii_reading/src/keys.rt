//! Collects the keys of a header.

ghost use Rattle.std.specs.Prelude.{◌≡◌, ◌≤◌, length, Ok, Err, OnOk, IfErr, Option};
ghost use Rattle.cell_ascii_meaning.specs.Header.{empty_header_key_values, key_values_with_header_key, header_defined_by_keys};
ghost use Rattle.cell_ascii_reading.specs.Given.{new_value_or_fault, null_text_if_new_without_colon, checked_int_type, header_of_region_or_fault};

use crate::header::Header;
use crate::header_null::HeaderNullText;
use crate::number;
use cell_ascii_meaning::grid_fault::GridKind;
use cell_ascii_meaning::header_key::HeaderKey;
use cell_core::region::{Region, RegionFault};
use cell_core_values::whole_numbers;
use std::marker::Model;

/// The keys read so far, with their values.
#[derive(Drop)]
pub struct HeaderKeys {
    north: Option<i64>,
    south: Option<i64>,
    east: Option<i64>,
    west: Option<i64>,
    rows: Option<u32>,
    cols: Option<u32>,
    null: Option<HeaderNullText>,
    kind: bool,
    multiplier: Option<i32>,
}

impl Model for HeaderKeys {
    ghost use Rattle.cell_ascii_meaning.specs.Header.{HeaderKeyValues};

    ghost Value = { HeaderKeyValues };

    ghost view = { λ k. record { north = k.north; south = k.south; east = k.east; west = k.west; rows = k.rows; cols = k.cols; null = k.null; kind = k.kind; multiplier = k.multiplier } };
}

// Returns the value of a key. It must be a number, and the key must be new.
fn value_if_number_of_new_key<T: Copy>(old: Option<T>, value: Option<T>) -> Result<T, GridKind>
    ensures { result ≡ new_value_or_fault old value }
{
    match (old, value) {
        (Some(_), _) => Err(GridKind::TwiceKey),
        (None, None) => Err(GridKind::BadNumber),
        (None, Some(value)) => Ok(value),
    }
}

// Returns the null text. It must be given for the first time, and must not contain a colon.
fn null_text_if_new_without_colon(
    old: &Option<HeaderNullText>,
    text: &[u8],
) -> Result<HeaderNullText, GridKind>
    requires { length text.now ≤ 64 }
    ensures { result ≡ null_text_if_new_without_colon old.now text.now }
{
    if text.contains(&b':') {
        return Err(GridKind::BadHeader);
    }
    match old {
        Some(_) => Err(GridKind::TwiceKey),
        None => Ok(HeaderNullText::new(text)),
    }
}

// Checks that the type is given for the first time and is `int`.
fn checked_int_type(old: bool, text: &[u8]) -> Result<bool, GridKind>
    ensures { result ≡ checked_int_type old text.now }
{
    if old {
        return Err(GridKind::TwiceKey);
    }
    if text != b"int".as_slice() {
        return Err(GridKind::BadType);
    }
    Ok(true)
}

// Returns the header over a region, or an error if there is no region.
fn header_of_region(
    region: Result<Region, RegionFault>,
    null: Option<HeaderNullText>,
    multiplier: Option<i32>,
) -> Result<Header, GridKind>
    ensures { result ≡ header_of_region_or_fault region null multiplier }
{
    match region {
        Ok(region) => Ok(Header::new(
            region,
            null.unwrap_or(HeaderNullText::usual()),
            multiplier.unwrap_or(1),
        )),
        Err(fault) => Err(GridKind::Region(fault)),
    }
}

impl HeaderKeys {
    /// Returns an empty collection of keys.
    pub fn new() -> HeaderKeys
        ensures { result ≡ empty_header_key_values }
    {
        HeaderKeys {
            north: None,
            south: None,
            east: None,
            west: None,
            rows: None,
            cols: None,
            null: None,
            kind: false,
            multiplier: None,
        }
    }

    /// Adds a key with the text of its value.
    pub fn give(&mut self, key: Option<HeaderKey>, text: &[u8]) -> Result<(), GridKind>
        requires { length text.now ≤ 64 }
        ensures ok { OnOk result (key_values_with_header_key self.old key text.now ≡ Ok self.new) }
        ensures err { IfErr result (λ kind. key_values_with_header_key self.old key text.now
            ≡ Err kind) }
    {
        match key {
            None => return Err(GridKind::BadHeader),
            Some(HeaderKey::North) => self.north = Some(value_if_number_of_new_key(
                self.north,
                number::coordinate_of_text(text),
            )?),
            Some(HeaderKey::South) => self.south = Some(value_if_number_of_new_key(
                self.south,
                number::coordinate_of_text(text),
            )?),
            Some(HeaderKey::East) => self.east = Some(value_if_number_of_new_key(
                self.east,
                number::coordinate_of_text(text),
            )?),
            Some(HeaderKey::West) => self.west = Some(value_if_number_of_new_key(
                self.west,
                number::coordinate_of_text(text),
            )?),
            Some(HeaderKey::Rows) => self.rows = Some(value_if_number_of_new_key(
                self.rows,
                number::row_or_column_count_of_text(text),
            )?),
            Some(HeaderKey::Cols) => self.cols = Some(value_if_number_of_new_key(
                self.cols,
                number::row_or_column_count_of_text(text),
            )?),
            Some(HeaderKey::Null) => self.null = Some(null_text_if_new_without_colon(
                &self.null, text,
            )?),
            Some(HeaderKey::CellType) => self.kind = checked_int_type(self.kind, text)?,
            Some(HeaderKey::Multiplier) => {
                self.multiplier = Some(value_if_number_of_new_key(
                    self.multiplier,
                    whole_numbers::whole_number_in_category_range(text),
                )?)
            }
        }
        Ok(())
    }

    /// Returns the header that the keys define.
    pub fn into_header(self) -> Result<Header, GridKind>
        ensures { result ≡ header_defined_by_keys self }
    {
        let Some(north) = self.north else {
            return Err(GridKind::MissingKey)
        };
        let Some(south) = self.south else {
            return Err(GridKind::MissingKey)
        };
        let Some(east) = self.east else {
            return Err(GridKind::MissingKey)
        };
        let Some(west) = self.west else {
            return Err(GridKind::MissingKey)
        };
        let Some(rows) = self.rows else {
            return Err(GridKind::MissingKey)
        };
        let Some(cols) = self.cols else {
            return Err(GridKind::MissingKey)
        };
        header_of_region(
            Region::new(north, south, east, west, rows, cols),
            self.null,
            self.multiplier,
        )
    }
}
