//! The numbers in the full map of the patches of tiles.

ghost use Rattle.std.specs.Prelude.{◌≡◌, ◌++◌, ◌∷◌, [], false, true, IfErr, IfOk};
ghost use Rattle.std.specs.List.Sorted.{IsPartitionPoint};
ghost use Rattle.cell_join_patches.specs.PatchNumbers.{AreRunsInOrder, is_run_of_patches, number_in_full_map, run_can_be_added, run_comes_after, run_has_patch};
ghost use Rattle.cell_join_patches.specs.parts.RunsBefore.{run_is_before_patch};

use cell_join_numbers::stretch::ConsecutiveClumps;
use std::alloc::Global;
use std::marker::Model;

/// Why a run is not added to a numbering.
#[derive(Clone, Copy, Debug, PartialEq, Eq)]
pub enum NumberingFault {
    /// The run has no patch, a number 0, or numbers of 2^64 or more, or does not come after the run before it.
    BadRun,
    /// Memory ran out.
    Memory,
}

/// The runs of the patches of tiles, in the order of tiles and their patches.
#[derive(Debug, Drop)]
pub struct PatchNumbering {
    runs: Vec<ConsecutiveClumps>,
}

impl Model for PatchNumbering {
    ghost use Rattle.std.specs.Prelude.{List};
    ghost use Rattle.cell_join_numbers.specs.declared.stretch.ConsecutiveClumps.{ConsecutiveClumps};
    ghost use Rattle.std.specs.List.Sorted.{IsPartitionPoint};
    ghost use Rattle.cell_join_patches.specs.PatchNumbers.{AreRunsInOrder, AreRunsInOrder};

    ghost Value = { List ConsecutiveClumps };

    ghost view = { λ n. n.runs.items };

    ghost invariant = { λ n. AreRunsInOrder n.runs.items };
}

// Returns whether the run has a patch, no number is 0, and its numbers in the full map fit in a `u64`.
fn is_run_of_patches(run: ConsecutiveClumps) -> bool
    ensures { result ≡ is_run_of_patches run }
{
    0 < run.tile
        && 0 < run.first
        && 0 < run.number
        && run.first <= run.last
        && run.number.checked_add(run.last - run.first).is_some()
}

// Returns whether a run is of a later tile, or has later patches of the same tile.
fn run_comes_after(previous: ConsecutiveClumps, run: ConsecutiveClumps) -> bool
    ensures { result ≡ run_comes_after previous run }
{
    previous.tile < run.tile || (previous.tile == run.tile && previous.last < run.first)
}

fn run_can_be_added(runs: &[ConsecutiveClumps], run: ConsecutiveClumps) -> bool
    ensures { result ≡ run_can_be_added runs.now run }
{
    if !is_run_of_patches(run) {
        return false;
    }
    match runs.last() {
        Some(previous) => run_comes_after(*previous, run),
        None => true,
    }
}

fn run_has_patch(run: ConsecutiveClumps, tile: u64, patch: u64) -> bool
    ensures { result ≡ run_has_patch tile patch run }
{
    run.tile == tile && run.first <= patch && patch <= run.last
}

// Returns whether the run is of an earlier tile, or has only earlier patches of the tile.
fn run_is_before_patch(run: ConsecutiveClumps, tile: u64, patch: u64) -> bool
    ensures { result ≡ run_is_before_patch tile patch run }
{
    run.tile < tile || (run.tile == tile && run.last < patch)
}

// Returns the index of the first run that is not before a patch, or the number of runs.
fn first_run_not_before_patch(runs: &[ConsecutiveClumps], tile: u64, patch: u64) -> usize
    requires { AreRunsInOrder runs.now }
    ensures { IsPartitionPoint (λ run. run_is_before_patch tile patch run ≡ true)
        (λ run. run_is_before_patch tile patch run ≡ false) runs.now result }
{
    runs.partition_point(
        |run: &ConsecutiveClumps| -> bool
            ensures { result ≡ run_is_before_patch tile patch run.now }
        { run_is_before_patch(*run, tile, patch) },
    )
}

// Returns the number in the full map of a tile's patch.
fn number_in_full_map(runs: &[ConsecutiveClumps], tile: u64, patch: u64) -> Option<u64>
    requires { AreRunsInOrder runs.now }
    ensures { result ≡ number_in_full_map runs.now tile patch }
{
    let at = first_run_not_before_patch(runs, tile, patch);
    if at >= runs.len() || !run_has_patch(runs[at], tile, patch) {
        return None;
    }
    Some(runs[at].number + (patch - runs[at].first))
}

impl PatchNumbering {
    /// Creates a numbering without runs. Allocates no memory.
    pub fn new(alloc: Global) -> PatchNumbering
        ensures { result ≡ [] }
    {
        PatchNumbering {
            runs: Vec::new(alloc),
        }
    }

    /// Adds a run.
    ///
    /// # Errors
    ///
    /// Returns a [`NumberingFault`] if the run cannot be added.
    pub fn add(self, run: ConsecutiveClumps) -> Result<PatchNumbering, NumberingFault>
        ensures added { IfOk result
            (λ more. (run_can_be_added self run ≡ true) × (more ≡ self ++ run ∷ [])) }
        ensures bad { IfErr result
            (λ fault. fault ≡ NumberingFault.BadRun → run_can_be_added self run ≡ false) }
    {
        let PatchNumbering { mut runs } = self;
        if !run_can_be_added(&runs, run) {
            return Err(NumberingFault::BadRun);
        }
        match runs.push(run) {
            Ok(()) => Ok(PatchNumbering { runs }),
            Err(_) => Err(NumberingFault::Memory),
        }
    }

    /// Returns the number in the full map of a tile's patch, or `None` if no run has the patch.
    pub fn number_in_full_map(&self, tile: u64, patch: u64) -> Option<u64>
        ensures { result ≡ number_in_full_map self.now tile patch }
    {
        number_in_full_map(&self.runs, tile, patch)
    }
}
