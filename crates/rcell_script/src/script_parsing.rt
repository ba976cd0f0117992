//! Parses the text of a script.

ghost use Rattle.std.specs.Prelude.{◌≡◌, ◌≢◌, ◌<◌, All, IfOk, IfErr};
ghost use Rattle.rcell_script.specs.Scripts.{IsScript};
ghost use Rattle.rcell_script.specs.ReadScripts.{IsScriptFault, ReportsMemoryAtLineZero};
ghost use Rattle.rcell_script.specs.FittingScripts.{StatementsFitKnownMaps};

use crate::line_reading::{OUT_OF_MEMORY_FAULT, ScriptReadingState};
use crate::lines::lines_of_script;
use crate::script_fault::{ScriptFault, ScriptKind};
use crate::statement::Script;
use cell_core::name::Names;
use std::alloc::Global;

/// Parses a script over maps with these names. In statements, a place is an index into the known names, followed by the
/// names of the maps that the script makes, in order.
///
/// # Errors
///
/// Returns the first error, line by line from the top, with its line number, from 1:
///
/// - [`ScriptKind::LongLine`], then [`ScriptKind::UnknownCommand`], then the errors of the command and of its rules
/// - [`ScriptKind::MissingEnd`] with the line of an r.reclass whose rules have no `end`
/// - [`ScriptKind::Memory`] with line 0 if memory runs out
pub fn parse_script(alloc: Global, text: &[u8], known: &Names) -> Result<Script, ScriptFault>
    ensures ok { IfOk result (IsScript known.now text.now) }
    ensures fits { IfOk result (StatementsFitKnownMaps known.now) }
    ensures numbered { IfOk result (All (λ s. 0 < s.line)) }
    ensures err { IfErr result (λ fault. fault.kind ≢ ScriptKind.Memory
        → IsScriptFault known.now text.now fault) }
    ensures memory { IfErr result ReportsMemoryAtLineZero }
{
    let Ok(lines) = lines_of_script(alloc, text) else {
        return Err(OUT_OF_MEMORY_FAULT);
    };
    let Ok(start) = ScriptReadingState::new(alloc, known) else {
        return Err(OUT_OF_MEMORY_FAULT);
    };
    let mut read = start;
    for (i, line) in lines.iter().enumerate() {
        read = read.with_line(alloc, i as u64 + 1, *line)?;
    }
    read.into_script()
}
