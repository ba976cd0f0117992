//! Splits a script into lines.

ghost use Rattle.std.specs.Prelude.{◌≡◌, IfOk, map};
ghost use Rattle.rcell_script.specs.Lines.{script_lines};

use bstr::ByteSlice;
use std::alloc::{AllocError, Global};

// Splits a script into lines.
pub(crate) fn lines_of_script<'a>(
    alloc: Global,
    text: &'a [u8],
) -> Result<Vec<&'a [u8]>, AllocError>
    ensures { IfOk result (λ lines. map (λ line. line.now) lines.items ≡ script_lines text.now) }
{
    text.lines().collect(alloc)
}
