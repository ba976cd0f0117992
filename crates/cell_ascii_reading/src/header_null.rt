//! Stores the text that denotes null.

ghost use Rattle.std.specs.Prelude.{◌≡◌, ◌≤◌, length, bytes_eq};
ghost use Rattle.std.specs.List.{list_all};
ghost use Rattle.cell_core_values.specs.Digits.{is_digit};
ghost use Rattle.cell_ascii_meaning.specs.Header.{usual_null_text};
ghost use Rattle.cell_core_values.specs.Capped.{capped_whole_number_of_text};

use cell_core_values::whole_numbers;
use std::marker::Model;

/// A null text of at most 64 bytes.
#[derive(Drop)]
pub struct HeaderNullText {
    bytes: [u8; 64],
    len: usize,
}

impl Model for HeaderNullText {
    ghost use Rattle.std.specs.Prelude.{ℕ, List, take, ◌≤◌};

    ghost Value = { List ℕ };

    ghost view = { λ t. take t.len t.bytes };

    ghost invariant = { λ t. t.len ≤ 64 };
}

impl HeaderNullText {
    /// Returns the default null text, an asterisk.
    pub fn usual() -> HeaderNullText
        ensures { result ≡ usual_null_text }
    {
        HeaderNullText {
            bytes: [b'*'; 64],
            len: 1,
        }
    }

    /// Returns a null text with a copy of these bytes.
    pub fn new(text: &[u8]) -> HeaderNullText
        requires { length text.now ≤ 64 }
        ensures { result ≡ text.now }
    {
        let mut bytes = [0; 64];
        bytes[..text.len()].copy_from_slice(text);
        HeaderNullText {
            bytes,
            len: text.len(),
        }
    }

    /// Returns whether a word equals the null text byte for byte.
    pub fn is(&self, word: &[u8]) -> bool
        ensures { result ≡ bytes_eq word.now self.now }
    {
        word == &self.bytes[..self.len]
    }

    /// Returns the bytes of the null text.
    pub fn bytes(&self) -> &[u8]
        ensures { result.now ≡ self.now }
    {
        &self.bytes[..self.len]
    }

    /// Returns whether the null text consists only of digits.
    pub fn has_only_digits(&self) -> bool
        ensures { result ≡ list_all is_digit self.now }
    {
        whole_numbers::are_digits(&self.bytes[..self.len])
    }

    /// Returns the null text as a number, capped at -10^18 and 10^18, if it is one.
    pub fn as_number(&self) -> Option<i64>
        ensures { result ≡ capped_whole_number_of_text self.now }
    {
        whole_numbers::whole_number_of_text(&self.bytes[..self.len])
    }
}
