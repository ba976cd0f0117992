//! Tests which statements a script has.

use crate::faults::one_grid;
use cell_clumps::clump::Joining;
use cell_core::cell::Cell;
use cell_core_test_maps::assert_same;
use cell_stats_combinations::combination::Combo;
use cell_stats_combinations::skip::Skip;
use rcell_script::script_parsing::parse_script;
use rcell_script::statement::Command;
use std::process::Abort;
use std::test::Fail;

// `r.out.ascii null_value=-1 input=g`
fn expect_grid_text<R: Abort>(rt: &R, command: &Command) -> Result<(), Fail> {
    let Command::OutAscii { place, null_text } = command else {
        return Err("no grid text".into());
    };
    assert_same!(rt; (*place, null_text.bytes()), (0, b"-1".as_slice()));
    Ok(())
}

// `r.reclass output=r input=g` with the rule `1 thru 3 = 7 low`
fn expect_classes<R: Abort>(rt: &R, command: &Command) -> Result<(), Fail> {
    let Command::Reclass {
        place,
        target,
        rules,
    } = command
    else {
        return Err("no classes".into());
    };
    assert_same!(rt; (*place, target.bytes()), (0, b"r".as_slice()));
    let two = Cell::value(2).unwrap_or(Cell::null());
    assert_same!(rt; rules.apply(two).get(), Some(7));
    Ok(())
}

// `r.clump -d input=r output=c`
fn expect_clumps<R: Abort>(rt: &R, command: &Command) -> Result<(), Fail> {
    let Command::Clump {
        place,
        target,
        joining,
    } = command
    else {
        return Err("no areas".into());
    };
    assert_same!(rt;
        (*place, target.bytes(), *joining),
        (1, b"c".as_slice(), Joining::EdgesAndCorners)
    );
    Ok(())
}

// `r.stats -cl -nN input=c,g separator=pipe null_value=a:b after=1,*`
fn expect_table<R: Abort>(rt: &R, command: &Command) -> Result<(), Fail> {
    let Command::Stats { places, options } = command else {
        return Err("no table".into());
    };
    assert_same!(rt;
        (places.as_slice(), options.skip),
        ([2, 0].as_slice(), Skip::AnyNull)
    );
    assert_same!(rt;
        (options.labels, options.counts, options.cells),
        (true, true, false)
    );
    assert_same!(rt;
        (options.separator, options.null_text.bytes()),
        (b'|', b"a:b".as_slice())
    );
    expect_pair(rt, options.after.as_ref())
}

// The combination `1,*`
fn expect_pair<R: Abort>(rt: &R, combination: Option<&Combo>) -> Result<(), Fail> {
    let Some(pair) = combination else {
        return Err("no combination".into());
    };
    if pair.len() != 2 {
        return Err("no pair".into());
    }
    assert_same!(rt; (pair.get(0).get(), pair.get(1).get()), (Some(1), None));
    Ok(())
}

#[test]
fn reads_statements(rt: HostRuntime) -> Result<(), Fail> {
    let alloc = rt.alloc();
    let text =
        b"# all\nr.out.ascii null_value=-1 input=g\n\nr.reclass output=r input=g\n1 thru 3 = 7 low\n# 9 = 9\n end\nr.clump -d input=r output=c\nr.stats -cl -nN input=c,g separator=pipe null_value=a:b after=1,*\n";
    let script = parse_script(alloc, text, &one_grid(alloc)?)?;
    let [grid, classes, clumps, table] = script.statements() else {
        return Err("another number of statements".into());
    };
    assert_same!(rt;
        (grid.line, classes.line, clumps.line, table.line),
        (2, 4, 8, 9)
    );
    expect_grid_text(&rt, &grid.command)?;
    expect_classes(&rt, &classes.command)?;
    expect_clumps(&rt, &clumps.command)?;
    expect_table(&rt, &table.command)
}
