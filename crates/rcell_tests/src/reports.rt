//! Tests the line that reports each error.

use cell_ascii::grid_fault::{GridFault, GridKind};
use cell_calc::{CalcFault, CalcKind};
use cell_cats::rules::RuleFault;
use cell_core::name::Name;
use cell_core::region::RegionFault;
use cell_core_test_maps::assert_same;
use cell_stats::combination_text::ComboFault;
use rcell::outcome::{Outcome, RunFault, exit_status_of_fault};
use rcell::report::fault_report_line;
use rcell::{ScriptFault, ScriptKind};
use std::alloc::{AllocGlobal, Global};
use std::process::Abort;
use std::test::Fail;

// Returns the line for an error of a run over the grids `g` and `land_grid.use`.
fn line_of(alloc: Global, fault: RunFault) -> Result<String, Fail> {
    let mut names = Vec::new(alloc);
    for name in [b"g".as_slice(), b"land.use"] {
        names.push(Name::read(alloc, name)?)?;
    }
    let outcome = Outcome {
        status: exit_status_of_fault(fault),
        written: u64::MAX,
        fault: Some(fault),
    };
    match fault_report_line(&outcome, &names) {
        Some(line) => Ok(line.to_string(alloc)?),
        None => Err("no line".into()),
    }
}

fn expect_line<R: Abort + AllocGlobal>(
    rt: &R,
    fault: RunFault,
    source: &str,
    text: &str,
) -> Result<(), Fail> {
    let line = line_of(rt.alloc(), fault)?;
    let wanted = format!(in rt.alloc(); "rcell: {source}: {text}")?;
    assert_same!(rt; line.as_str(), wanted.as_str());
    Ok(())
}

// Checks the line for an error of an expression, at column 15.
fn expect_calc_line<R: Abort + AllocGlobal>(
    rt: &R,
    kind: CalcKind,
    text: &str,
) -> Result<(), Fail> {
    let kind = ScriptKind::Calc(CalcFault { kind, column: 15 });
    let fault = ScriptFault { kind, line: 6 };
    let text = format!(in rt.alloc(); "{text} at column 15")?;
    expect_line(rt, RunFault::Script(fault), "script:6", text.as_str())
}

// The text for each kind of grid error.
const GRID_KINDS: [(GridKind, &str); 15] = [
    (GridKind::BadHeader, "bad header line"),
    (GridKind::TwiceKey, "key given twice"),
    (GridKind::MissingKey, "missing key"),
    (GridKind::BadNumber, "bad number"),
    (GridKind::BadType, "type not supported"),
    (GridKind::Region(RegionFault::BadRows), "bad region"),
    (GridKind::BadCell, "bad cell"),
    (GridKind::CellRange, "cell out of range"),
    (GridKind::TooFew, "too few cells"),
    (GridKind::TooMany, "too many cells"),
    (GridKind::Read, "read failed"),
    (GridKind::Memory, "no memory"),
    (GridKind::Failed, "reader failed"),
    (GridKind::ReaderStuck, "too many blanks"),
    (GridKind::LongToken, "token too long"),
];

#[test]
fn reports_faults_of_grids(rt: HostRuntime) -> Result<(), Fail> {
    for &(kind, text) in &GRID_KINDS {
        let fault = GridFault { kind, line: 10 };
        expect_line(&rt, RunFault::Grid { grid: 1, fault }, "land.use:10", text)?;
    }
    expect_line(
        &rt,
        RunFault::GridTwice { grid: 0 },
        "g:0",
        "name used twice",
    )?;
    expect_line(
        &rt,
        RunFault::GridRegion { grid: 1 },
        "land.use:0",
        "other region",
    )
}

// The text for each kind of script error, except in expressions.
const SCRIPT_KINDS: [(ScriptKind, &str); 13] = [
    (ScriptKind::UnknownCommand, "unknown command"),
    (ScriptKind::BadOption, "bad option"),
    (ScriptKind::MissingOption, "missing option"),
    (ScriptKind::UnknownMap, "unknown map"),
    (ScriptKind::MapExists, "map exists"),
    (ScriptKind::MissingEnd, "missing end"),
    (ScriptKind::Rule(RuleFault::BadRule), "bad rule"),
    (ScriptKind::Rule(RuleFault::BadNumber), "bad number in rule"),
    (ScriptKind::Combo(ComboFault::BadCombo), "bad combination"),
    (
        ScriptKind::Combo(ComboFault::BadWidth),
        "combination of another width",
    ),
    (ScriptKind::LongLine, "line too long"),
    (ScriptKind::BadName, "bad name"),
    (ScriptKind::Memory, "no memory"),
];

// The text for each kind of expression error, without its column.
const CALC_KINDS: [(CalcKind, &str); 10] = [
    (CalcKind::BadByte, "bad byte"),
    (CalcKind::BadNumber, "bad number"),
    (CalcKind::FloatNumber, "number not whole"),
    (CalcKind::Expected, "unexpected token"),
    (CalcKind::UnknownFunction, "unknown function"),
    (CalcKind::Arguments, "wrong number of arguments"),
    (CalcKind::BadOffset, "offset out of range"),
    (CalcKind::TooLong, "expression too long"),
    (CalcKind::BadName, "bad name"),
    (CalcKind::UnknownMap, "unknown map"),
];

#[test]
fn reports_faults_of_scripts(rt: HostRuntime) -> Result<(), Fail> {
    for &(kind, text) in &SCRIPT_KINDS {
        let fault = ScriptFault { kind, line: 6 };
        expect_line(&rt, RunFault::Script(fault), "script:6", text)?;
    }
    for &(kind, text) in &CALC_KINDS {
        expect_calc_line(&rt, kind, text)?;
    }
    expect_line(&rt, RunFault::ScriptRead, "script:0", "read failed")?;
    expect_line(&rt, RunFault::ScriptSize, "script:0", "script too long")
}

#[test]
fn reports_faults_of_execution(rt: HostRuntime) -> Result<(), Fail> {
    let most = "write failed after 18446744073709551615 bytes";
    expect_line(&rt, RunFault::Write, "output:0", most)?;
    expect_line(&rt, RunFault::Memory { line: 7 }, "script:7", "no memory")
}
