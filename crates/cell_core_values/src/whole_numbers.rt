//! Reads whole numbers in decimal.

ghost use Rattle.std.specs.Prelude.{◌≡◌, ◌≤◌, IfSome};
ghost use Rattle.std.specs.List.{list_all};
ghost use Rattle.cell_core_values.specs.Digits.{is_digit, value_of_digits};
ghost use Rattle.cell_core_values.specs.WholeNumbers.{is_in_category_range, read_whole_number, whole_number_in_category_range};
ghost use Rattle.cell_core_values.specs.Capped.{capped_at_10_to_18, capped_value_of_digits, capped_whole_number_of_text};

/// The smallest whole number in range (GRASS: the smallest category).
pub const LEAST_CATEGORY: i32 = -2147483647;

/// The largest whole number in range (GRASS: the largest category).
pub const GREATEST: i32 = 2147483647;

// Larger numbers are capped at this number, which is out of every range.
const WHOLE_NUMBER_CAP: u64 = 1000000000000000000;

/// Why a text is not a whole number in range.
#[derive(Clone, Copy, Debug, PartialEq, Eq)]
pub enum WholeNumberFault {
    /// The text is not an optional sign followed by one or more digits.
    NotWhole,
    /// The text is a whole number below [`LEAST_CATEGORY`] or above [`GREATEST`].
    OutOfRange,
}

/// Returns whether a byte is a decimal digit. Does not allocate.
pub fn is_digit(b: u8) -> bool
    ensures { result ≡ is_digit b }
{
    b'0' <= b && b <= b'9'
}

/// Returns whether all bytes are decimal digits. Does not allocate.
pub fn are_digits(text: &[u8]) -> bool
    ensures { result ≡ list_all is_digit text.now }
{
    text.iter().all(|b| is_digit(*b))
}

/// Returns the value of decimal digits, capped at 10^18. Does not allocate.
pub fn value_of_digits(text: &[u8]) -> u64
    ensures value { result ≡ capped_at_10_to_18 (value_of_digits text.now) }
    ensures most { result ≤ 1000000000000000000 }
{
    let mut value = 0u64;
    for b in text {
        value = (value * 10 + (*b).saturating_sub(b'0') as u64).min(WHOLE_NUMBER_CAP);
    }
    value
}

// Returns the value of one or more digits, capped at 10^18.
fn value_if_digits(text: &[u8]) -> Option<u64>
    ensures value { result ≡ capped_value_of_digits text.now }
    ensures most { IfSome result (λ n. n ≤ WHOLE_NUMBER_CAP) }
{
    if text.is_empty() || !are_digits(text) {
        return None;
    }
    Some(value_of_digits(text))
}

/// Returns the whole number that a text spells with an optional sign and one or more digits, capped at -10^18 and
/// 10^18. Does not allocate.
pub fn whole_number_of_text(text: &[u8]) -> Option<i64>
    ensures { result ≡ capped_whole_number_of_text text.now }
{
    match text {
        [b'-', digits @ ..] => value_if_digits(digits).map(|n| -(n as i64)),
        [b'+', digits @ ..] => value_if_digits(digits).map(|n| n as i64),
        _ => value_if_digits(text).map(|n| n as i64),
    }
}

/// Returns whether a number is between [`LEAST_CATEGORY`] and [`GREATEST`]. Does not allocate.
pub fn is_in_category_range(n: i64) -> bool
    ensures { result ≡ is_in_category_range n }
{
    LEAST_CATEGORY as i64 <= n && n <= GREATEST as i64
}

/// Returns the whole number in range that a text spells with an optional sign and one or more digits. Does not
/// allocate.
///
/// # Errors
///
/// [`WholeNumberFault::NotWhole`] if the text does not spell a whole number, [`WholeNumberFault::OutOfRange`] if the number is out
/// of range.
pub fn read_whole_number(text: &[u8]) -> Result<i32, WholeNumberFault>
    ensures { result ≡ read_whole_number text.now }
{
    match whole_number_of_text(text) {
        Some(n) if is_in_category_range(n) => Ok(n as i32),
        Some(_) => Err(WholeNumberFault::OutOfRange),
        None => Err(WholeNumberFault::NotWhole),
    }
}

/// Returns the whole number in range that a text spells, or `None` if there is none. Does not allocate.
pub fn whole_number_in_category_range(text: &[u8]) -> Option<i32>
    ensures { result ≡ whole_number_in_category_range text.now }
{
    match whole_number_of_text(text) {
        Some(n) if is_in_category_range(n) => Some(n as i32),
        _ => None,
    }
}
