//! Tests which error of a script is reported, and where.

use cell_cats::rules::RuleFault;
use cell_core::name::{Name, Names};
use cell_core_test_maps::assert_same;
use cell_stats_combinations::combination_text::ComboFault;
use rcell_script::script_fault::{ScriptFault, ScriptKind};
use rcell_script::script_parsing::parse_script;
use std::alloc::Global;
use std::test::Fail;

// Returns the names of the only grid, `g`.
pub(crate) fn one_grid(alloc: Global) -> Result<Names, Fail> {
    let mut known = Names::new(alloc);
    let name = Name::read(alloc, b"g")?;
    known.push(name)?;
    Ok(known)
}

// Scripts, each with the kind and the line of its first error.
const FAULTS: [(&str, ScriptKind, u64); 31] = [
    (
        "r.stats -c input=g\n# note\nr.clump input=h output=c",
        ScriptKind::UnknownMap,
        3,
    ),
    ("end", ScriptKind::UnknownCommand, 1),
    ("r.stats -c input=h after=x", ScriptKind::UnknownMap, 1),
    ("r.stats -c -1", ScriptKind::MissingOption, 1),
    ("r.stats -1 -c input=g", ScriptKind::BadOption, 1),
    ("r.stats -1 input=h after=1", ScriptKind::BadOption, 1),
    ("\nr.stats -c input=g input=1a", ScriptKind::BadOption, 2),
    ("r.stats input=", ScriptKind::BadName, 1),
    ("r.stats input=g -", ScriptKind::BadOption, 1),
    ("r.stats input=g -cd", ScriptKind::BadOption, 1),
    ("r.stats input=g c", ScriptKind::BadOption, 1),
    ("r.stats input=g output=c", ScriptKind::BadOption, 1),
    ("r.stats input=g separator=ab", ScriptKind::BadOption, 1),
    (
        "r.stats input=g after=1x",
        ScriptKind::Combo(ComboFault::BadCombo),
        1,
    ),
    (
        "r.stats input=g after=",
        ScriptKind::Combo(ComboFault::BadCombo),
        1,
    ),
    (
        "r.stats input=g after=1,2",
        ScriptKind::Combo(ComboFault::BadWidth),
        1,
    ),
    (
        "r.stats -c input=g,g after=1",
        ScriptKind::Combo(ComboFault::BadWidth),
        1,
    ),
    (
        "r.out.ascii input=1a null_value=a:b",
        ScriptKind::BadName,
        1,
    ),
    (
        "r.out.ascii null_value=a:b input=1a",
        ScriptKind::BadOption,
        1,
    ),
    ("r.out.ascii -c input=g", ScriptKind::BadOption, 1),
    ("r.clump input=h output=g", ScriptKind::UnknownMap, 1),
    ("r.clump input=g output=g", ScriptKind::MapExists, 1),
    ("r.clump input=c output=c", ScriptKind::UnknownMap, 1),
    ("r.clump input=g,g output=c", ScriptKind::BadName, 1),
    ("r.clump input=g", ScriptKind::MissingOption, 1),
    (
        "r.clump input=g output=c\nr.clump -d input=g output=c",
        ScriptKind::MapExists,
        2,
    ),
    (
        "r.reclass input=g output=r\n1 = 2",
        ScriptKind::MissingEnd,
        1,
    ),
    (
        "r.reclass input=g output=r\nx = 2",
        ScriptKind::Rule(RuleFault::BadNumber),
        2,
    ),
    (
        "r.reclass input=g output=r\n1 = 99999999999\nend",
        ScriptKind::Rule(RuleFault::BadNumber),
        2,
    ),
    (
        "r.reclass input=g output=r\n1 thru = 3\nend",
        ScriptKind::Rule(RuleFault::BadRule),
        2,
    ),
    (
        "r.reclass input=g output=r\n# x\n\nr.stats input=g\nend",
        ScriptKind::Rule(RuleFault::BadNumber),
        4,
    ),
];

#[test]
fn reports_the_first_fault(rt: HostRuntime) -> Result<(), Fail> {
    let known = one_grid(rt.alloc())?;
    for &(text, kind, line) in &FAULTS {
        let reported = parse_script(rt.alloc(), text.as_bytes(), &known).err();
        assert_same!(rt; reported, Some(ScriptFault { kind, line }), "{text}");
    }
    Ok(())
}
