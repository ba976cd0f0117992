//! Opens the files that a request names.

ghost use Rattle.std.specs.Prelude.{◌≡◌, ◌≢◌, ◌<◌, ℕ, List, [], ◌∷◌, None, IfErr, IfOk, OnErr, OnOk, get_or, vec_len};
ghost use Rattle.clap.specs.Walk.{texts};
ghost use Rattle.cell_core_devices.specs.declared.source.Asked.{Asked};
ghost use Rattle.rcell_command.specs.Processes.{SourceGivesContentsOfFile, OpensExactlyFilesAtPaths, OpensFilesAtFirstPaths};
ghost use Rattle.rcell_program.specs.OpenedGrids.{SourcesHoldFileContents, AreGridSourcesOpened};
ghost use Rattle.rcell_program.specs.Refusals.{IsRefusalOfOpeningFiles};

use crate::command_words::RunRequest;
use crate::refusal::Refusal;
use cell_core::name::Name;
use cell_core::source::Source;
use rcell_command::process::Process;
use std::alloc::Global;

/// The sources of a script and of its grids.
#[derive(Drop)]
pub struct OpenedFiles<F: Source + Drop> {
    /// The source of the script.
    pub script: F,
    /// The name of each grid and its source, in order; at least one.
    pub grids: Vec<(Name, F)>,
    ghost has_grid: { 0 < vec_len grids },
}

// Opens the file of a grid. Returns the grid's name and its source.
fn open_grid<P: Process>(
    alloc: Global,
    process: &mut P,
    grid: usize,
    name: &Name,
    path: &str,
) -> Result<(Name, P::File), Refusal>
    ensures name { IfOk result (λ opened. opened.0 ≡ name.now) }
    ensures asked { IfOk result (λ opened. P.File.asked opened.1 ≡ Asked.Going) }
    ensures gives { IfOk result
        (λ opened. SourceGivesContentsOfFile (P.files process.old) P.File.coming path.now
        opened.1) }
    ensures supposed { IfOk result
        (λ opened. P.File.supposed opened.1 ≡ P.supposed_file process.old path.now) }
    ensures same { P.supposed_file process.new ≡ P.supposed_file process.old }
    ensures opens { OnOk result
        (OpensExactlyFilesAtPaths P.files P.opened P.errors P.failed process.old process.new
        (path.now ∷ [])) }
    ensures some { OnErr result
        (OpensFilesAtFirstPaths P.files P.opened P.errors P.failed process.old
        process.new (path.now ∷ [])) }
    ensures reported { IfErr result (λ refusal. refusal ≢ Refusal.Memory
        → (refusal ≡ Refusal.GridFile grid) × (P.files process.old path.now ≡ None)) }
{
    let source = match process.open(path, Refusal::Memory, Refusal::GridFile { grid }) {
        Ok(source) => source,
        Err(refusal) => return Err(refusal),
    };
    match name.copy(alloc) {
        Ok(name) => Ok((name, source)),
        Err(_) => Err(Refusal::Memory),
    }
}

// Returns the path of a grid.
#[tactic(auto, using(crate::proofs::WordLemmas::word_at))]
fn path_of_grid<'a>(request: &RunRequest<'a>, grid: usize) -> &'a str
    requires { grid < vec_len request.now.paths }
    ensures { (none : List ℕ) → result.now ≡ get_or (texts request.now.paths.items) grid none }
{
    request.paths[grid]
}

// Opens the files of the grids. Returns their names and sources, in order.
fn open_grids<P: Process>(
    alloc: Global,
    process: &mut P,
    request: &RunRequest<'_>,
) -> Result<Vec<(Name, P::File)>, Refusal>
    ensures opened { IfOk result (λ grids. AreGridSourcesOpened
        (P.files process.old) P.File.coming P.File.asked
        request.now.names.items (texts request.now.paths.items) grids.items) }
    ensures supposed { IfOk result (λ grids. SourcesHoldFileContents
        (P.supposed_file process.old) P.File.supposed
        (texts request.now.paths.items) grids.items) }
    ensures opens { OnOk result
        (OpensExactlyFilesAtPaths P.files P.opened P.errors P.failed process.old process.new
        (texts request.now.paths.items)) }
    ensures some { OnErr result
        (OpensFilesAtFirstPaths P.files P.opened P.errors P.failed process.old
        process.new (texts request.now.paths.items)) }
    ensures reported { (script : List ℕ) → IfErr result
        (IsRefusalOfOpeningFiles (P.files process.old) script
        (texts request.now.paths.items)) }
{
    let mut grids = Vec::new(alloc);
    for grid in 0..request.names.len() {
        let name = &request.names[grid];
        let path = path_of_grid(request, grid);
        let opened = match open_grid(alloc, process, grid, name, path) {
            Ok(opened) => opened,
            Err(refusal) => return Err(refusal),
        };
        if grids.push(opened).is_err() {
            return Err(Refusal::Memory);
        }
    }
    Ok(grids)
}

/// Opens the script, and then each grid in order.
///
/// # Errors
///
/// Returns [`Refusal::ScriptFile`] or [`Refusal::GridFile`] for the first file that can't be opened; [`Refusal::Usage`]
/// if the request names no grid, or [`Refusal::Memory`] if memory runs out.
pub fn open_files<P: Process>(
    alloc: Global,
    process: &mut P,
    request: &RunRequest<'_>,
) -> Result<OpenedFiles<P::File>, Refusal>
    // No source has been read yet, so none has ended or failed.
    ensures script { IfOk result (λ opened. P.File.asked opened.script ≡ Asked.Going) }
    ensures gives { IfOk result (λ opened. SourceGivesContentsOfFile
        (P.files process.old) P.File.coming
        request.now.script.now opened.script) }
    ensures grids { IfOk result (λ opened. AreGridSourcesOpened
        (P.files process.old) P.File.coming P.File.asked
        request.now.names.items (texts request.now.paths.items)
        opened.grids.items) }
    // The sources return the contents of the files at their paths, as far as these are known or supposed.
    ensures supposed { IfOk result (λ opened. P.File.supposed opened.script
        ≡ P.supposed_file process.old request.now.script.now) }
    ensures files { IfOk result (λ opened. SourcesHoldFileContents
        (P.supposed_file process.old) P.File.supposed
        (texts request.now.paths.items) opened.grids.items) }
    ensures opens { OnOk result
        (OpensExactlyFilesAtPaths P.files P.opened P.errors P.failed process.old process.new
        (request.now.script.now ∷ texts request.now.paths.items)) }
    ensures some { OnErr result
        (OpensFilesAtFirstPaths P.files P.opened P.errors P.failed process.old
        process.new (request.now.script.now ∷ texts request.now.paths.items)) }
    ensures reported { IfErr result (IsRefusalOfOpeningFiles
        (P.files process.old) request.now.script.now
        (texts request.now.paths.items)) }
{
    let path = request.script;
    let script = match process.open(path, Refusal::Memory, Refusal::ScriptFile) {
        Ok(script) => script,
        Err(refusal) => return Err(refusal),
    };
    let grids = match open_grids(alloc, process, request) {
        Ok(grids) => grids,
        Err(refusal) => return Err(refusal),
    };
    if grids.is_empty() {
        return Err(Refusal::Usage);
    }
    Ok(OpenedFiles { script, grids })
}
