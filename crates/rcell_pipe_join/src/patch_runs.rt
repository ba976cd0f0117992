//! Reads the runs of a numbering.

ghost use Rattle.std.specs.Prelude.{[]};
ghost use Rattle.rcell_pipe_request.specs.RequestFields.{reading_repeated_n_times};
ghost use Rattle.rcell_pipe_request.specs.Feeds.{ReadsRequestFieldAndStaysOpen};
ghost use Rattle.rcell_pipe_join.specs.PatchLists.{patch_number_run_reading, patch_numbering_reading, runs_with_next_run_reading};

use cell_join_numbers::stretch::ConsecutiveClumps;
use cell_join_patches::patch_numbering::{NumberingFault, PatchNumbering};
use rcell_pipe_request::error::{ErrorKind, FieldReadingStop};
use rcell_pipe_request::feed::{Feed, read_u64};
use std::alloc::Global;
use std::io::Read;

// Reads a run.
#[tactic(auto, unfolding(crate::specs::PatchLists::patch_number_run_reading))]
fn read_patch_number_run<R: Read>(feed: &mut Feed<R>) -> Result<ConsecutiveClumps, FieldReadingStop>
    ensures { ReadsRequestFieldAndStaysOpen (λ run. run) feed.old result feed.new
        patch_number_run_reading }
{
    let tile = read_u64(feed)?;
    let first = read_u64(feed)?;
    let last = read_u64(feed)?;
    let number = read_u64(feed)?;
    Ok(ConsecutiveClumps {
        tile,
        first,
        last,
        number,
    })
}

// Reads one more run.
#[tactic(auto, unfolding(crate::specs::PatchLists::runs_with_next_run_reading))]
fn read_next_run<R: Read>(
    feed: &mut Feed<R>,
    numbering: PatchNumbering,
) -> Result<PatchNumbering, FieldReadingStop>
    ensures { ReadsRequestFieldAndStaysOpen (λ more. more) feed.old result feed.new
        (runs_with_next_run_reading numbering) }
{
    let run = read_patch_number_run(feed)?;
    match numbering.add(run) {
        Ok(more) => Ok(more),
        Err(fault) => match fault {
            NumberingFault::BadRun => Err(FieldReadingStop::Error(ErrorKind::BadRun)),
            NumberingFault::Memory => Err(FieldReadingStop::Memory),
        },
    }
}

// Reads `count` runs.
fn read_given_number_of_runs<R: Read>(
    alloc: Global,
    feed: &mut Feed<R>,
    count: u64,
) -> Result<PatchNumbering, FieldReadingStop>
    ensures { ReadsRequestFieldAndStaysOpen (λ numbering. numbering) feed.old result feed.new
        (reading_repeated_n_times runs_with_next_run_reading [] count) }
{
    let mut numbering = PatchNumbering::new(alloc);
    for i in 0..count {
        numbering = match read_next_run(feed, numbering) {
            Ok(more) => more,
            Err(stop) => return Err(stop),
        };
    }
    Ok(numbering)
}

/// Reads the runs of a numbering. Memory grows only with the bytes that have arrived.
#[tactic(auto, unfolding(crate::specs::PatchLists::patch_numbering_reading))]
pub(crate) fn read_patch_numbering<R: Read>(
    alloc: Global,
    feed: &mut Feed<R>,
) -> Result<PatchNumbering, FieldReadingStop>
    ensures { ReadsRequestFieldAndStaysOpen (λ numbering. numbering) feed.old result feed.new
        patch_numbering_reading }
{
    let count = read_u64(feed)?;
    read_given_number_of_runs(alloc, feed, count)
}
