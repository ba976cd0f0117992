//! Displays words and paths in messages.

use bstr::ByteSlice;
use std::fmt;

/// A text whose control characters are escaped, so that a terminal does not interpret them.
#[derive(Clone, Copy, Debug)]
pub struct EscapedText<'a> {
    /// The text.
    pub text: &'a [u8],
}

impl<'a> fmt::Display for EscapedText<'a> {
    fn fmt<W: fmt::Write>(&self, f: &mut fmt::Formatter<W>) -> fmt::Result {
        for ch in self.text.chars() {
            if ch.is_control() {
                for escaped in ch.escape_default() {
                    f.write_char(escaped)?;
                }
            } else {
                f.write_char(ch)?;
            }
        }
        Ok(())
    }
}
