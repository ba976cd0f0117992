//! Reads numbers of rows and columns, and coordinates.

ghost use Rattle.std.specs.Prelude.{◌≡◌, ◌&&◌, ◌==◌, ◌+◌, ◌<◌, ◌≤◌, nat_le, length, IfSome};
ghost use Rattle.std.specs.List.{position_or_len};
ghost use Rattle.cell_ascii_meaning.specs.EdgeNumbers.{decimal_in_coordinate_units, unsigned_coordinate_of_text, coordinate_of_text, row_or_column_count_of_text};

use cell_core_values::whole_numbers::{
    are_digits, value_of_digits, whole_number_in_category_range,
};

// A bound above all coordinates, in units of 10^-8.
const COORDINATE_CAP: u64 = 1000000000000000000;

/// Reads a number of rows or columns: a whole number in range, with 0 for negative numbers.
pub fn row_or_column_count_of_text(text: &[u8]) -> Option<u32>
    ensures { result ≡ row_or_column_count_of_text text.now }
{
    whole_number_in_category_range(text).map(|n| n.max(0) as u32)
}

fn are_few_coordinate_digits(whole: usize, part: usize) -> bool
    ensures { result ≡ ((nat_le whole 10 && nat_le part 8) && nat_le 1 (whole + part)) }
{
    whole <= 10 && part <= 8 && 1 <= whole + part
}

// Reads the digits before and after a point as a number in units of 10^-8.
fn decimal_in_coordinate_units(whole: &[u8], part: &[u8]) -> Option<u64>
    ensures value { result ≡ decimal_in_coordinate_units whole.now part.now }
    ensures most { IfSome result (λ n. n < COORDINATE_CAP) }
{
    if !are_digits(whole)
        || !are_digits(part)
        || !are_few_coordinate_digits(whole.len(), part.len())
    {
        return None;
    }
    let scale = 10u64.pow(8 - part.len() as u32);
    Some(value_of_digits(whole) * 100000000 + value_of_digits(part) * scale)
}

/// Returns the index of the first occurrence of `byte`, or the length of the text if there is none.
pub fn first_byte_place_or_length(byte: u8, text: &[u8]) -> usize
    ensures place { result ≡ position_or_len (λ b. b == byte) text.now }
    ensures within { result ≤ length text.now }
{
    for (i, b) in text.iter().enumerate() {
        if *b == byte {
            return i;
        }
    }
    text.len()
}

fn unsigned_coordinate_of_text(text: &[u8]) -> Option<u64>
    ensures value { result ≡ unsigned_coordinate_of_text text.now }
    ensures most { IfSome result (λ n. n < COORDINATE_CAP) }
{
    let point = first_byte_place_or_length(b'.', text);
    if point < text.len() {
        decimal_in_coordinate_units(&text[..point], &text[point + 1..])
    } else {
        decimal_in_coordinate_units(text, &[])
    }
}

/// Reads a coordinate in units of 10^-8: an optional sign, digits, and optionally a point with more digits.
pub fn coordinate_of_text(text: &[u8]) -> Option<i64>
    ensures { result ≡ coordinate_of_text text.now }
{
    match text {
        [b'-', rest @ ..] => unsigned_coordinate_of_text(rest).map(|n| -(n as i64)),
        [b'+', rest @ ..] => unsigned_coordinate_of_text(rest).map(|n| n as i64),
        _ => unsigned_coordinate_of_text(text).map(|n| n as i64),
    }
}
