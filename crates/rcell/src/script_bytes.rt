//! Reads the text of a script.

ghost use Rattle.std.specs.Prelude.{◌≡◌, IfErr};
ghost use Rattle.cell_core_devices.specs.Supposed.{HoldsForAgreeingContents, content_to_come};
ghost use Rattle.rcell.specs.RunFaults.{ResultAgreesWithInputReading, IsFaultInScript};
ghost use Rattle.rcell.specs.ScriptText.{script_text_or_fault};
ghost use Rattle.rcell.specs.parts.Asked.{read_state_after_reading};

use crate::run_fault::RunFault;
use cell_core::source::{Asked, Source};
use std::alloc::Global;

/// Maximum length of a script in bytes.
const MOST_SCRIPT_BYTES: usize = 1048576;

/// Reads a script to its end, or to one byte beyond its maximum length.
///
/// # Errors
///
/// - [`RunFault::ScriptSize`] if it has more than 1,048,576 bytes
/// - [`RunFault::ScriptRead`] if its reader fails before that
/// - [`RunFault::Memory`] with line 0 if memory runs out
pub fn read_script<R: Source>(alloc: Global, source: &mut R) -> Result<Vec<u8>, RunFault>
    ensures answer { HoldsForAgreeingContents (content_to_come (R.supposed source.old))
        (content_to_come (R.supposed source.new))
        (λ c. ResultAgreesWithInputReading (λ text. text.items) result (script_text_or_fault c)) }
    ensures whose { IfErr result IsFaultInScript }
    // The end of the source and a read error are reported, and the source is not read again after them.
    ensures asked { R.asked source.old ≡ Asked.Going
        → R.asked source.new ≡ read_state_after_reading result }
{
    let mut text = Vec::new(alloc);
    let mut block = [0u8; 4096];
    'pieces: loop {
        let room = (MOST_SCRIPT_BYTES - text.len() + 1).min(4096);
        let count = match source.take(&mut block[..room]) {
            Ok(count) => count,
            Err(_) => return Err(RunFault::ScriptRead),
        };
        if count == 0 {
            return Ok(text);
        }
        if count > MOST_SCRIPT_BYTES - text.len() {
            return Err(RunFault::ScriptSize);
        }
        match text.extend_from_slice(&block[..count]) {
            Ok(()) => {}
            Err(_) => return Err(RunFault::Memory { line: 0 }),
        }
    }
}
