//! The header of a grid text, which determines the cell that each word denotes.

ghost use Rattle.std.specs.Prelude.{◌≡◌, Some, true, bytes_eq};
ghost use Rattle.cell_ascii_meaning.specs.CellTexts.{cell_of_word, cell_of_number};
ghost use Rattle.cell_ascii_reading.specs.InRange.{cell_or_range_fault, DigitWordsDenoteTheirNumber};
ghost use Rattle.cell_ascii_meaning.specs.EdgeNumbers.{whole_number_of_text};
ghost use Rattle.cell_ascii_meaning.specs.GridWords.{usual_null_text};

use crate::header_null::HeaderNullText;
use cell_ascii_meaning::grid_fault::GridKind;
use cell_core::cell::Cell;
use cell_core::region::Region;
use cell_core_values::whole_numbers;
use std::marker::Model;

/// The region, the null text, and the multiplier of the cells.
#[derive(Drop)]
pub struct Header {
    region: Region,
    null_text: HeaderNullText,
    // The null text as a number, if it is one. A word of any other number in range need not be compared with the null
    // text.
    null_number: Option<i64>,
    multiplier: i32,
    // Whether the null text is not a number and the multiplier is 1, so that every number in range denotes itself.
    is_plain: bool,
}

impl Model for Header {
    ghost use Rattle.std.specs.Prelude.{◌≡◌, None, pos, true};
    ghost use Rattle.cell_core_values.specs.Capped.{capped_whole_number_of_text};
    ghost use Rattle.cell_ascii_meaning.specs.Header.{GridHeaderContents};

    ghost Value = { GridHeaderContents };

    ghost view = { λ h. record { region = h.region; null_text = h.null_text; multiplier = h.multiplier } };

    ghost invariant = { λ h. (h.null_number ≡ capped_whole_number_of_text h.null_text) × (h.is_plain ≡ true → (h.null_number ≡ None) × (h.multiplier ≡ pos 1)) };
}

#[inline(always)]
fn cell_if_in_range(number: i64) -> Result<Cell, GridKind>
    ensures { result ≡ cell_or_range_fault number }
{
    if !whole_numbers::is_in_category_range(number) {
        return Err(GridKind::CellRange);
    }
    match Cell::value(number as i32) {
        Some(cell) => Ok(cell),
        None => Err(GridKind::CellRange),
    }
}

// Returns the cell of a number, multiplied by the multiplier.
#[inline(always)]
fn multiplied_cell(multiplier: i32, number: i64) -> Result<Cell, GridKind>
    ensures { result ≡ cell_of_number multiplier (Some number) }
{
    if !whole_numbers::is_in_category_range(number) {
        return Err(GridKind::CellRange);
    }
    // With a multiplier of 1, the range is checked only once.
    if multiplier == 1 {
        return cell_if_in_range(number);
    }
    cell_if_in_range(number * multiplier as i64)
}

impl Header {
    /// Returns the header with these values.
    pub fn new(region: Region, null_text: HeaderNullText, multiplier: i32) -> Header
        ensures { result
            ≡ record { region = region; null_text = null_text; multiplier = multiplier } }
    {
        let null_number = null_text.as_number();
        let is_plain = null_number.is_none() && multiplier == 1;
        Header {
            region,
            null_text,
            null_number,
            multiplier,
            is_plain,
        }
    }

    /// Returns the region of the header.
    pub fn region(&self) -> Region
        ensures { result ≡ self.now.region }
    {
        self.region
    }

    /// Returns the cell that the word of a number denotes. Inlined, because it is called for each cell.
    #[inline(always)]
    pub fn cell_of_number(&self, word: &[u8], number: i64) -> Result<Cell, GridKind>
        requires { whole_number_of_text word.now ≡ Some number }
        ensures { result ≡ cell_of_word self.now word.now }
    {
        if self.is_plain {
            return cell_if_in_range(number);
        }
        if self.spells_null(word, number) {
            Ok(Cell::null())
        } else {
            multiplied_cell(self.multiplier, number)
        }
    }

    // Returns whether the word of a number is the null text. The texts are compared only if their numbers do not settle
    // the question.
    #[inline(always)]
    fn spells_null(&self, word: &[u8], number: i64) -> bool
        requires { whole_number_of_text word.now ≡ Some number }
        ensures { result ≡ bytes_eq word.now self.now.null_text }
    {
        let Some(null) = self.null_number else {
            return false;
        };
        if null != number && whole_numbers::is_in_category_range(number) {
            return false;
        }
        self.null_text.is(word)
    }

    /// Returns whether each word of digits denotes its own number, if this is in range.
    pub fn digit_words_denote_their_number(&self) -> bool
        ensures { result ≡ true → DigitWordsDenoteTheirNumber self.now }
    {
        !self.null_text.has_only_digits() && self.multiplier == 1
    }

    /// Returns the word that denotes null.
    pub fn null_word(&self) -> &[u8]
        ensures { result.now ≡ self.now.null_text }
    {
        self.null_text.bytes()
    }

    /// Returns whether a star denotes null.
    pub fn is_star_null(&self) -> bool
        ensures { result ≡ true → self.now.null_text ≡ usual_null_text }
    {
        self.null_text.is(b"*")
    }

    /// Returns the cell that a word denotes.
    pub fn cell_of_word(&self, word: &[u8]) -> Result<Cell, GridKind>
        ensures { result ≡ cell_of_word self.now word.now }
    {
        if self.null_text.is(word) {
            return Ok(Cell::null());
        }
        match whole_numbers::whole_number_of_text(word) {
            Some(number) => multiplied_cell(self.multiplier, number),
            None => Err(GridKind::BadCell),
        }
    }
}
