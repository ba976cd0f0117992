//! Tests that a rule for which memory runs out leaves the rules unchanged, and that its line can be added again.
//!
//! In a normal run every allocation succeeds. tools/hostile makes allocations fail in turn, one per run, and checks
//! that the call is repeated in some of the runs.

use cell_cats::rules::{LineKind, RuleFault, Rules};
use cell_core::cell::Cell;
use cell_core_test_maps::assert_same;
use std::alloc::AllocGlobal;
use std::process::Abort;
use std::test::Fail;

// Rules, each with the new category of the category that equals the rule's position, from 1.
const LINES: [(&[u8], i32); 6] = [
    (b"1 = 9 low", 9),
    (b"2 thru 3 , 5 = 7", 7),
    (b"3 = 5 a label", 5),
    (b"4, 4, 4, 4, 4, 4, 4, 4, 4 = -2", -2),
    (b"5 = 1", 1),
    (b"-7 thru -6 6 = 0 zero", 0),
];

// Returns the new category of a category, if it has one.
pub(crate) fn new_category(rules: &Rules, category: i32) -> Option<i32> {
    rules.apply(Cell::value(category)?).get()
}

fn add_line<R: Abort + AllocGlobal + Eprint>(
    rt: &R,
    rules: &mut Rules,
    category: i32,
    line: &[u8],
) -> Result<(), Fail> {
    let before = new_category(rules, category);
    if let Err(fault) = rules.add_line(line) {
        let _ = eprintln!(rt; "made again");
        assert_same!(rt; fault, RuleFault::Memory);
        assert_same!(rt; new_category(rules, category), before, "the line {line:?}");
        assert!(rt;
            rules.add_line(line) == Ok(LineKind::Rule),
            "the line {line:?}"
        );
    }
    Ok(())
}

#[test]
fn a_refused_rule_is_added_again(rt: HostRuntime) -> Result<(), Fail> {
    let mut rules = Rules::new(rt.alloc());
    for (place, (line, wanted)) in LINES.iter().enumerate() {
        let category = place as i32 + 1;
        add_line(&rt, &mut rules, category, *line)?;
        assert_same!(rt;
            new_category(&rules, category),
            Some(*wanted),
            "the line {line:?}"
        );
    }
    Ok(())
}
