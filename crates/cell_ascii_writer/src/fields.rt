//! Stores fields of a grid text, each a space and the text of a cell, in the lowest bytes of a number.

ghost use Rattle.std.specs.Prelude.{pos, negsuc, ◌≤ℤ◌, ◌≡◌, ◌+◌, ◌<◌, ◌≤◌, ◌∷◌, ◌++◌, ◌^◌, true, codes, decimal, length, take};
ghost use Rattle.std.specs.Fmt.{signed_decimal};
ghost use Rattle.cell_core_values.specs.Letters.{byte};
ghost use Rattle.cell_core.specs.Text.{cell_text};
ghost use Rattle.cell_core_values.specs.SmallCells.{cell_of_stored_byte};
ghost use Rattle.cell_ascii_writer.specs.Fields.{IsFieldOfSpaceAndText, last_digits_one_per_byte, lowest_bytes_of_number};
ghost use Rattle.cell_ascii_writer.specs.parts.MadeFields.{AreDigitsOfNumbersBelow1000};

use std::marker::Model;
use std::simd::prelude::*;

// Number of different bytes.
const NUMBER_OF_BYTE_VALUES: usize = 256;

const NULL_FIELD_PLACE: usize = 255;

const THOUSAND: usize = 1000;

const MILLION: u32 = 1_000_000;

// Maximum length of a text that fits into a field.
const MOST_FIELD_TEXT_BYTES: usize = 7;

// Six bytes of the digit 0.
const SIX_ZERO_DIGITS: u64 = 0x3030_3030_3030;

// A space and a text, stored in the lowest bytes of a number, and their length.
#[derive(Clone, Copy)]
pub(crate) struct Field {
    pub(crate) bytes: u64,
    pub(crate) size: usize,
}

// The three digits of each number below 1000, one per byte, with the first digit in the lowest byte.
#[derive(Drop)]
pub(crate) struct ThreeDigitTable {
    digits: [u32; THOUSAND],
    ghost made: { AreDigitsOfNumbersBelow1000 digits },
}

impl ThreeDigitTable {
    fn new() -> ThreeDigitTable {
        let mut digits = [0; THOUSAND];
        for upper in 0..100u32 {
            let front = upper / 10 + upper % 10 * 256;
            for last in 0..10u32 {
                digits[(upper * 10 + last) as usize] = front + last * 65536;
            }
        }
        ThreeDigitTable { digits }
    }

    // Returns the six digits of a number, one per byte, with the first digit in the lowest byte.
    #[inline(always)]
    fn six_digits(&self, number: u32) -> u64
        requires { number < 1000000 }
        ensures { result ≡ last_digits_one_per_byte 6 number }
    {
        let upper = self.digits[(number / 1000) as usize];
        let lower = self.digits[(number % 1000) as usize];
        upper as u64 + lower as u64 * 0x100_0000
    }

    // Returns the digits of a number in the lowest bytes of the result, and the number of digits.
    #[inline(always)]
    fn digits_of(&self, number: u32) -> (u64, usize)
        requires some { 0 < number }
        requires few { number < 1000000 }
        ensures size { result.1 ≤ 6 }
        ensures small { result.0 < 2 ^ 48 }
        ensures text { lowest_bytes_of_number result.0 result.1 ≡ decimal number }
    {
        let digits = self.six_digits(number);
        let zeros = digits.trailing_zeros() / 8;
        (
            (digits + SIX_ZERO_DIGITS) >> (8 * zeros),
            6 - zeros as usize,
        )
    }

    // Returns the field of a category from 1 to 999,999.
    #[inline(always)]
    fn field(&self, category: i32) -> Field
        requires least { pos 1 ≤ℤ category }
        requires most { category ≤ℤ pos 999999 }
        ensures { IsFieldOfSpaceAndText (signed_decimal category) result }
    {
        let (digits, size) = self.digits_of(category.unsigned_abs());
        Field {
            bytes: digits * 256 + 0x20,
            size: size + 1,
        }
    }

    // Returns the field of a category from -999,999 to -1.
    #[inline(always)]
    fn field_of_negative_category(&self, category: i32) -> Field
        requires least { negsuc 999998 ≤ℤ category }
        requires most { category ≤ℤ negsuc 0 }
        ensures { IsFieldOfSpaceAndText (signed_decimal category) result }
    {
        let (digits, size) = self.digits_of(category.unsigned_abs());
        Field {
            bytes: digits * 65536 + 0x2d20,
            size: size + 2,
        }
    }

    // Returns the field of a number with seven digits.
    fn seven_digit_field(&self, number: u32) -> Field
        requires many { 1000000 ≤ number }
        requires few { number < 10000000 }
        ensures { IsFieldOfSpaceAndText (decimal number) result }
    {
        let digits = self.six_digits(number % MILLION) + SIX_ZERO_DIGITS;
        let first = (number / MILLION + 48) as u64;
        Field {
            bytes: (digits * 256 + first) * 256 + 0x20,
            size: 8,
        }
    }
}

// Returns whether a category is from 0 to 999,999.
#[inline(always)]
pub(crate) fn is_from_0_to_999999(category: i32) -> bool
    ensures { result ≡ true → (pos 0 ≤ℤ category) × (category ≤ℤ pos 999999) }
{
    category >= 0 && category < MILLION as i32
}

// Writes a space and a text into a line at index `at`. Returns where they end.
pub(crate) fn put_space_and_text(line: &mut [u8], at: usize, text: &[u8]) -> usize
    requires { at + 1 + length text.now ≤ length line.old }
    ensures end { result ≡ at + 1 + length text.now }
    ensures text { take result line.new ≡ take at line.old ++ byte (codes " ") ∷ text.now }
{
    let end = at + 1 + text.len();
    line[at] = b' ';
    line[at + 1..end].copy_from_slice(text);
    end
}

// Returns the field of a short text.
fn field_of_short_text(text: &[u8]) -> Field
    requires { length text.now ≤ 7 }
    ensures { IsFieldOfSpaceAndText text.now result }
{
    let mut field = [b' '; 8];
    let size = put_space_and_text(&mut field, 0, text);
    let [bytes] = u64x1::from_le_bytes(u8x8::from_slice(&field)).to_array();
    Field { bytes, size }
}

// The fields for a map, prepared once per map. In contracts, the value is the null text.
#[derive(Drop)]
pub(crate) struct PreparedCellFields<'a> {
    null_text: &'a [u8],
    // The fields of cells stored as bytes. The field of null is valid only if the null text is short.
    small: [Field; NUMBER_OF_BYTE_VALUES],
    triples: ThreeDigitTable,
}

impl<'a> Model for PreparedCellFields<'a> {
    ghost use Rattle.std.specs.Prelude.{pos, negsuc, ◌≤ℤ◌, List, ℕ};
    ghost use Rattle.cell_ascii_writer.specs.parts.MadeFields.{AreFieldsOfByteCells};

    ghost Value = { List ℕ };

    ghost view = { λ fields. fields.null_text.now };

    ghost invariant = { λ fields. AreFieldsOfByteCells fields.null_text.now fields.small };
}

impl<'a> PreparedCellFields<'a> {
    // Returns the fields for a map with this null text.
    pub(crate) fn new(null_text: &'a [u8]) -> PreparedCellFields<'a>
        requires { length null_text.now ≤ 64 }
        ensures { result ≡ null_text.now }
    {
        let triples = ThreeDigitTable::new();
        let mut small = [field_of_short_text(b"0"); NUMBER_OF_BYTE_VALUES];
        for i in 1..NULL_FIELD_PLACE {
            small[i] = triples.field(i as i32);
        }
        if null_text.len() <= MOST_FIELD_TEXT_BYTES {
            small[NULL_FIELD_PLACE] = field_of_short_text(null_text);
        }
        PreparedCellFields {
            null_text,
            small,
            triples,
        }
    }

    // Returns the null text.
    pub(crate) fn null_text(&self) -> &'a [u8]
        ensures value { result.now ≡ self.now }
        ensures few { length self.now ≤ 64 }
    {
        self.null_text
    }

    // Returns whether null has a field.
    #[inline(always)]
    pub(crate) fn has_null(&self) -> bool
        ensures { result ≡ true → length self.now ≤ 7 }
    {
        self.null_text.len() <= MOST_FIELD_TEXT_BYTES
    }

    // Returns the field of the cell that a byte stands for.
    #[inline(always)]
    pub(crate) fn field_of_byte_cell(&self, byte: u8) -> Field
        requires { length self.now ≤ 7 }
        ensures { IsFieldOfSpaceAndText (cell_text self.now (cell_of_stored_byte byte)) result }
    {
        self.small[byte as usize]
    }

    // Returns the field of a category from 0 to 999,999.
    #[inline(always)]
    pub(crate) fn of_number(&self, category: i32) -> Field
        requires least { pos 0 ≤ℤ category }
        requires most { category ≤ℤ pos 999999 }
        ensures { IsFieldOfSpaceAndText (signed_decimal category) result }
    {
        if category < NULL_FIELD_PLACE as i32 {
            return self.small[category as usize];
        }
        self.triples.field(category)
    }

    // Returns the field of a category from -999,999 to 9,999,999.
    #[inline(always)]
    pub(crate) fn field_of_short_category(&self, category: i32) -> Field
        requires least { negsuc 999998 ≤ℤ category }
        requires most { category ≤ℤ pos 9999999 }
        ensures { IsFieldOfSpaceAndText (signed_decimal category) result }
    {
        match category {
            0..=999_999 => self.of_number(category),
            1_000_000.. => self.triples.seven_digit_field(category.unsigned_abs()),
            _ => self.triples.field_of_negative_category(category),
        }
    }
}

// Writes a field into a line at index `at`. Returns where it ends. Always writes eight bytes.
#[inline(always)]
pub(crate) fn put_field_into_line(line: &mut [u8], at: usize, field: Field) -> usize
    requires room { at + 8 ≤ length line.old }
    requires few { field.size ≤ 8 }
    ensures end { result ≡ at + field.size }
    ensures text { take result line.new ≡ take at line.old
        ++ lowest_bytes_of_number field.bytes field.size }
{
    u64x1::from_array([field.bytes])
        .to_le_bytes()
        .copy_to_slice(&mut line[at..]);
    at + field.size
}
