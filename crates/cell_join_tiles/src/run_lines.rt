//! Builds the runs of a tile from clumps with consecutive numbers.

ghost use Rattle.std.specs.Prelude.{◌≡◌, ◌+◌, ◌<◌, ◌^◌, ◌++◌, ℕ, List, IfOk};
ghost use Rattle.std.specs.List.{range_with_len};
ghost use Rattle.cell_join_numbers.specs.declared.stretch.ConsecutiveClumps.{ConsecutiveClumps};
ghost use Rattle.cell_join_tiles.specs.parts.RunLines.{ConsecutiveClumpsAreListed, clump_count_up_to_unfinished_run};

use cell_core::memory::Memory;
use cell_join_numbers::stretch::{ConsecutiveClumps, is_next_number};

// The last run of a tile so far, which may continue, and the number of its last clump.
#[derive(Clone, Copy)]
pub(crate) struct UnfinishedConsecutiveClumps {
    pub(crate) stretch: ConsecutiveClumps,
    pub(crate) previous: u64,
}

// `count` clumps, with the numbers `first` to `last`.
#[derive(Clone, Copy)]
pub(crate) struct Run {
    pub(crate) first: u64,
    pub(crate) last: u64,
    pub(crate) count: u64,
}

// Adds clumps after the clumps of a line. Extends the line, or finishes its run and begins a new one.
pub(crate) fn extend_or_begin_clump_run(
    stretches: &mut Vec<ConsecutiveClumps>,
    part: u64,
    line: Option<UnfinishedConsecutiveClumps>,
    run: Run,
) -> Result<Option<UnfinishedConsecutiveClumps>, Memory>
    requires some { 0 < run.count }
    requires last { run.last + 1 ≡ run.first + run.count }
    requires few { clump_count_up_to_unfinished_run line + run.count < 2 ^ 64 }
    ensures clumps { IfOk result
        (λ after. clump_count_up_to_unfinished_run after
        ≡ clump_count_up_to_unfinished_run line + run.count) }
    ensures lines { IfOk result (λ after. (before : List ConsecutiveClumps) (numbers : List ℕ)
        → ConsecutiveClumpsAreListed part before numbers stretches.old.items line
        → ConsecutiveClumpsAreListed part before (numbers ++ range_with_len run.first run.count)
        stretches.new.items after) }
{
    let Some(line) = line else {
        let stretch = ConsecutiveClumps {
            tile: part,
            first: 1,
            last: run.count,
            number: run.first,
        };
        return Ok(Some(UnfinishedConsecutiveClumps {
            stretch,
            previous: run.last,
        }));
    };
    let last = line.stretch.last + run.count;
    if is_next_number(line.previous, run.first) {
        let stretch = ConsecutiveClumps {
            last,
            ..line.stretch
        };
        return Ok(Some(UnfinishedConsecutiveClumps {
            stretch,
            previous: run.last,
        }));
    }
    stretches.push(line.stretch)?;
    let stretch = ConsecutiveClumps {
        tile: line.stretch.tile,
        first: line.stretch.last + 1,
        last,
        number: run.first,
    };
    Ok(Some(UnfinishedConsecutiveClumps {
        stretch,
        previous: run.last,
    }))
}
