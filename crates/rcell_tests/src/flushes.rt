//! Counts how many times a run flushes its sink, also if memory runs out.

use crate::runs::{FIVE_COMMANDS, GRID, source};
use cell_core::device::DeviceFault;
use cell_core::name::Name;
use cell_core::sink::{FlushCount, Sink};
use cell_core_test_maps::assert_same;
use rcell::{Outcome, RunFault, run};
use std::alloc::AllocGlobal;
use std::process::Abort;
use std::test::Fail;

// The length of the full output in bytes.
const ALL_BYTES: u64 = 111;

// A sink with limited room, which counts flushes. Its flush may fail.
#[derive(Drop)]
struct Counting {
    room: usize,
    flush_fails: bool,
    refused: bool,
    unflushed: bool,
    flushes: FlushCount,
}

impl Counting {
    fn new(room: usize, flush_fails: bool) -> Counting {
        Counting {
            room,
            flush_fails,
            refused: false,
            unflushed: false,
            flushes: FlushCount::Never,
        }
    }
}

impl Sink for Counting {
    ghost use Rattle.std.specs.Prelude.{None};

    ghost taken = { λ _. None };

    ghost faults = { λ s. record { refused = s.refused; unflushed = s.unflushed; flushes = s.flushes } };

    fn put(&mut self, bytes: &[u8]) -> Result<usize, DeviceFault> {
        if bytes.len() > self.room {
            self.refused = true;
            return Err(DeviceFault);
        }
        self.room -= bytes.len();
        Ok(bytes.len())
    }

    fn flush(&mut self) -> Result<(), DeviceFault> {
        self.flushes = self.flushes.again();
        if self.flush_fails {
            self.unflushed = true;
            return Err(DeviceFault);
        }
        Ok(())
    }
}

// Runs a script over one grid, `g`. Returns the outcome and how many times the sink was flushed.
fn counted<R: AllocGlobal>(
    rt: &R,
    script: &[u8],
    room: usize,
    flush_fails: bool,
) -> Result<(Outcome, FlushCount), Fail> {
    let alloc = rt.alloc();
    let mut out = Counting::new(room, flush_fails);
    let grids = vec![in alloc; (Name::read(alloc, b"g")?, source(alloc, GRID, false)?)]?;
    let outcome = run(alloc, source(alloc, script, false)?, grids, &mut out).outcome;
    Ok((outcome, out.flushes))
}

#[test]
fn is_flushed_once_unless_refused_or_failed(rt: HostRuntime) -> Result<(), Fail> {
    for &(script, room, flush_fails, status, written, flushes) in &[
        (FIVE_COMMANDS, 200, false, 0, ALL_BYTES, FlushCount::Once),
        (FIVE_COMMANDS, 200, true, 4, ALL_BYTES, FlushCount::Once),
        (
            b"# nothing is asked for\n".as_slice(),
            0,
            false,
            0,
            0,
            FlushCount::Once,
        ),
        (b"# nothing is asked for\n", 0, true, 4, 0, FlushCount::Once),
        (FIVE_COMMANDS, 9, false, 4, 0, FlushCount::Never),
        (FIVE_COMMANDS, 9, true, 4, 0, FlushCount::Never),
    ] {
        let (outcome, flushed) = counted(&rt, script, room, flush_fails)?;
        let wanted = Outcome {
            status,
            written,
            fault: if status == 4 {
                Some(RunFault::Write)
            } else {
                None
            },
        };
        assert_same!(rt; outcome, wanted);
        assert_same!(rt; flushed, flushes);
    }
    Ok(())
}

// Returns the number of bytes written if memory runs out at a line of the script.
fn written_before(line: u64) -> u64 {
    if line < 2 {
        0
    } else if line < 8 {
        16
    } else {
        37
    }
}

// Checks a run that runs out of memory. It reports the bytes of the previous statements. Like a finished run, it
// flushes its sink once if memory ran out in a statement; if memory ran out earlier, it never does.
fn expect_out_of_memory<R: Abort>(rt: &R, outcome: Outcome, flushes: FlushCount) {
    let line = match outcome.fault {
        Some(RunFault::Memory { line }) => line,
        _ => 0,
    };
    let wanted = if line > 0 {
        FlushCount::Once
    } else {
        FlushCount::Never
    };
    assert_same!(rt;
        (outcome.status, outcome.written, flushes),
        (3, written_before(line), wanted)
    );
}

#[test]
fn a_run_out_of_memory_is_flushed_and_made_again(rt: HostRuntime) -> Result<(), Fail> {
    let (outcome, flushes) = counted(&rt, FIVE_COMMANDS, 200, false)?;
    if outcome.status == 0 {
        assert_same!(rt; flushes, FlushCount::Once);
        return Ok(());
    }
    expect_out_of_memory(&rt, outcome, flushes);
    let _ = eprintln!(rt; "made again");
    let (again, flushes) = counted(&rt, FIVE_COMMANDS, 200, false)?;
    assert_same!(rt; (again.status, flushes), (0, FlushCount::Once));
    Ok(())
}

// A failed flush turns a finished run into a failed write, and does not affect a run that is out of memory.
#[test]
fn a_run_out_of_memory_stays_so_and_is_made_again(rt: HostRuntime) -> Result<(), Fail> {
    let (outcome, flushes) = counted(&rt, FIVE_COMMANDS, 200, true)?;
    if outcome.status == 4 {
        assert_same!(rt; (outcome.written, flushes), (ALL_BYTES, FlushCount::Once));
        return Ok(());
    }
    expect_out_of_memory(&rt, outcome, flushes);
    let _ = eprintln!(rt; "made again");
    let (again, flushes) = counted(&rt, FIVE_COMMANDS, 200, true)?;
    assert_same!(rt; (again.status, again.written, flushes), (4, ALL_BYTES, FlushCount::Once));
    Ok(())
}
