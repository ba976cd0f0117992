//! Texts that denote null.

ghost use Rattle.std.specs.Prelude.{◌≡◌, IfOk, true};
ghost use Rattle.std.specs.List.{list_all};
ghost use Rattle.cell_ascii_meaning.specs.Header.{usual_null_text};
ghost use Rattle.cell_ascii_meaning.specs.Writing.{IsValidNullText};
ghost use Rattle.rcell_script.specs.NullText.{is_printable_byte, is_grid_null_text_byte, is_grid_null_text, is_table_null_text};
ghost use Rattle.rcell_script.specs.OptionReading.{IsOptionReadingUnlessMemory, grid_null_text_in_option, table_null_text_in_option};

use crate::option_fault::OptionFault;
use cell_core::memory::Memory;
use std::alloc::Global;
use std::marker::Model;

/// Maximum length of a null text in bytes.
const MOST_NULL_TEXT_BYTES: usize = 64;

/// The null text of a grid that is written: 1 to 64 bytes from `!` to `~`, except colons (profile).
#[derive(Drop)]
pub struct NullText {
    bytes: Vec<u8>,
}

impl Model for NullText {
    ghost use Rattle.std.specs.Prelude.{List, ℕ, ◌≡◌, true};
    ghost use Rattle.rcell_script.specs.NullText.{is_grid_null_text};

    ghost Value = { List ℕ };

    ghost view = { λ t. t.bytes.items };

    ghost invariant = { λ t. is_grid_null_text t.bytes.items ≡ true };
}

/// The null text of a table: 1 to 64 bytes from `!` to `~` (profile).
#[derive(Drop)]
pub struct TableNullText {
    bytes: Vec<u8>,
}

impl Model for TableNullText {
    ghost use Rattle.std.specs.Prelude.{List, ℕ, ◌≡◌, true};
    ghost use Rattle.rcell_script.specs.NullText.{is_table_null_text};

    ghost Value = { List ℕ };

    ghost view = { λ t. t.bytes.items };

    ghost invariant = { λ t. is_table_null_text t.bytes.items ≡ true };
}

fn is_printable_byte(b: u8) -> bool
    ensures { result ≡ is_printable_byte b }
{
    b'!' <= b && b <= b'~'
}

fn is_grid_null_text_byte(b: u8) -> bool
    ensures { result ≡ is_grid_null_text_byte b }
{
    is_printable_byte(b) && b != b':'
}

fn are_grid_null_text_bytes(bytes: &[u8]) -> bool
    ensures { result ≡ list_all is_grid_null_text_byte bytes.now }
{
    bytes.iter().all(|b| is_grid_null_text_byte(*b))
}

fn are_printable_bytes(bytes: &[u8]) -> bool
    ensures { result ≡ list_all is_printable_byte bytes.now }
{
    bytes.iter().all(|b| is_printable_byte(*b))
}

fn is_grid_null_text(bytes: &[u8]) -> bool
    ensures { result ≡ is_grid_null_text bytes.now }
{
    bytes.len() >= 1 && bytes.len() <= MOST_NULL_TEXT_BYTES && are_grid_null_text_bytes(bytes)
}

fn is_table_null_text(bytes: &[u8]) -> bool
    ensures { result ≡ is_table_null_text bytes.now }
{
    bytes.len() >= 1 && bytes.len() <= MOST_NULL_TEXT_BYTES && are_printable_bytes(bytes)
}

impl NullText {
    /// Reads the value of an option as a null text.
    ///
    /// # Errors
    ///
    /// Returns [`OptionFault::BadOption`] if the value is not a null text, or [`OptionFault::Memory`] if memory runs
    /// out.
    pub(crate) fn read(alloc: Global, value: &[u8]) -> Result<NullText, OptionFault>
        ensures { IsOptionReadingUnlessMemory result (grid_null_text_in_option value.now) }
    {
        if !is_grid_null_text(value) {
            return Err(OptionFault::BadOption);
        }
        let bytes = Vec::from_slice(alloc, value)?;
        Ok(NullText { bytes })
    }

    /// Returns the default null text: an asterisk.
    ///
    /// # Errors
    ///
    /// Returns [`Memory`] if memory runs out.
    pub(crate) fn usual(alloc: Global) -> Result<NullText, Memory>
        ensures { IfOk result (λ text. text ≡ usual_null_text) }
    {
        let bytes = Vec::from_slice(alloc, b"*")?;
        Ok(NullText { bytes })
    }

    /// Returns the bytes of the text.
    pub fn bytes(&self) -> &[u8]
        ensures value { result.now ≡ self.now }
        ensures text { IsValidNullText self.now }
    {
        self.bytes.as_slice()
    }
}

impl TableNullText {
    /// Reads the value of an option as a null text.
    ///
    /// # Errors
    ///
    /// Returns [`OptionFault::BadOption`] if the value is not a null text, or [`OptionFault::Memory`] if memory runs
    /// out.
    pub(crate) fn read(alloc: Global, value: &[u8]) -> Result<TableNullText, OptionFault>
        ensures { IsOptionReadingUnlessMemory result (table_null_text_in_option value.now) }
    {
        if !is_table_null_text(value) {
            return Err(OptionFault::BadOption);
        }
        let bytes = Vec::from_slice(alloc, value)?;
        Ok(TableNullText { bytes })
    }

    /// Returns the default null text: an asterisk.
    ///
    /// # Errors
    ///
    /// Returns [`Memory`] if memory runs out.
    pub(crate) fn usual(alloc: Global) -> Result<TableNullText, Memory>
        ensures { IfOk result (λ text. text ≡ usual_null_text) }
    {
        let bytes = Vec::from_slice(alloc, b"*")?;
        Ok(TableNullText { bytes })
    }

    /// Returns the bytes of the text.
    pub fn bytes(&self) -> &[u8]
        ensures value { result.now ≡ self.now }
        ensures text { is_table_null_text self.now ≡ true }
    {
        &self.bytes
    }
}
