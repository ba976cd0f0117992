//! Tests full runs in memory: the output, its length, the status and the error.

use cell_core::name::Name;
use cell_core::sink::MemorySink;
use cell_core::source::{MemorySource, Source};
use cell_core_test_maps::assert_same;
use rcell::{Outcome, RunFault, run};
use std::alloc::{AllocGlobal, Global};
use std::process::Abort;
use std::test::Fail;

pub(crate) const GRID: &[u8] =
    b"north: 3\nsouth: 0\neast: 4\nwest: 0\nrows: 3\ncols: 4\n1 1 2 *\n1 2 2 2\n3 3 1 1\n";

const FOUR_CELLS: &[u8] = b"north: 2\nsouth: 0\neast: 2\nwest: 0\nrows: 2\ncols: 2\n1 *\n1 -7\n";

pub(crate) fn source(alloc: Global, text: &[u8], fails: bool) -> Result<MemorySource, Fail> {
    Ok(MemorySource::new(text.to_vec(alloc)?, 7, fails))
}

// Runs a script over named texts.
fn run_texts(
    alloc: Global,
    grids: &[(&[u8], &[u8])],
    script: &[u8],
    out: &mut MemorySink,
) -> Result<Outcome, Fail> {
    let mut named = Vec::new(alloc);
    for (name, text) in grids {
        let name = Name::read(alloc, *name)?;
        let text = source(alloc, *text, false)?;
        named.push((name, text))?;
    }
    if named.is_empty() {
        Err("no grid")?;
    }
    Ok(run(alloc, source(alloc, script, false)?, named, out).outcome)
}

// Checks the outcome of a run, and the bytes that its sink accepted.
fn expect_run<R: Abort + AllocGlobal>(
    rt: &R,
    grids: &[(&[u8], &[u8])],
    script: &[u8],
    out: MemorySink,
    wanted: Outcome,
    bytes: &[u8],
) -> Result<(), Fail> {
    let mut out = out;
    let outcome = run_texts(rt.alloc(), grids, script, &mut out)?;
    assert_same!(rt; (outcome, out.bytes()), (wanted, bytes));
    Ok(())
}

// A script with each of the five commands.
pub(crate) const FIVE_COMMANDS: &[u8] =
    b"r.stats -c input=g\nr.clump input=g output=c\nr.mapcalc x = c[1,0] + 1\nr.reclass input=g output=r\n1 thru 3 = 7 low\nend\nr.stats -cl input=r\nr.out.ascii input=x\n";

const FIVE_TEXTS: &[u8] =
    b"1 5\n2 4\n3 2\n* 1\n7 low 11\n* no data 1\nnorth: 3\nsouth: 0\neast: 4\nwest: 0\nrows: 3\ncols: 4\n2 3 3 3\n4 4 5 5\n* * * *\n";

#[test]
fn writes_what_each_command_asks_for(rt: HostRuntime) -> Result<(), Fail> {
    let grids: [(&[u8], &[u8]); 1] = [(b"g", GRID)];
    let slow = MemorySink::new(vec![in rt.alloc(); 0u8; 200]?, 1, false);
    let done = Outcome {
        status: 0,
        written: 111,
        fault: None,
    };
    expect_run(&rt, &grids, FIVE_COMMANDS, slow, done, FIVE_TEXTS)?;
    let short = MemorySink::new(vec![in rt.alloc(); 0u8; 60]?, 3, false);
    let failed = Outcome {
        status: 4,
        written: 60,
        fault: Some(RunFault::Write),
    };
    expect_run(&rt, &grids, FIVE_COMMANDS, short, failed, &FIVE_TEXTS[..60])
}

// Returns sources of named texts.
fn named_sources(
    alloc: Global,
    grids: &[(&[u8], &[u8])],
) -> Result<Vec<(Name, MemorySource)>, Fail> {
    let mut named = Vec::new(alloc);
    for (name, text) in grids {
        named.push((Name::read(alloc, *name)?, source(alloc, *text, false)?))?;
    }
    Ok(named)
}

// The second grid has another region, so neither the third grid nor the script is read.
#[test]
fn the_sources_that_were_read_come_back(rt: HostRuntime) -> Result<(), Fail> {
    let alloc = rt.alloc();
    let grids = named_sources(alloc, &[(b"a", GRID), (b"b", FOUR_CELLS), (b"c", GRID)])?;
    if grids.is_empty() {
        return Err("no grid".into());
    }
    let script = source(alloc, b"r.stats -c input=a", false)?;
    let mut out = MemorySink::new(vec![in alloc; 0u8; 100]?, 3, false);
    let ran = run(alloc, script, grids, &mut out);
    let fault = Some(RunFault::GridRegion { grid: 1 });
    assert_same!(rt; (ran.outcome.fault, ran.grids.len()), (fault, 2));
    let mut bytes = [0u8; 7];
    let mut script = ran.script;
    assert_same!(rt; script.take(&mut bytes), Ok(7));
    assert_same!(rt; bytes.as_slice(), b"r.stats".as_slice());
    for mut grid in ran.grids {
        assert_same!(rt; grid.take(&mut bytes), Ok(0));
    }
    Ok(())
}
