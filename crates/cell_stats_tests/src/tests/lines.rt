//! Tests of each form of a rule line.

use super::growths::new_category;
use cell_cats::rules::{LineKind, RuleFault, Rules};
use cell_core::cell::Cell;
use cell_core_test_maps::assert_same;
use std::process::Abort;
use std::test::Fail;

const GOOD: [(&[u8], LineKind); 27] = [
    (b"1 = 2", LineKind::Rule),
    (b"1 2 3 = 4", LineKind::Rule),
    (b"1,2,3=4", LineKind::Rule),
    (b" 1, 2\t,3 =\t4 \r", LineKind::Rule),
    (b"1 thru 3 = 7 low", LineKind::Rule),
    (b"5 thru 1 = 2", LineKind::Rule),
    (b"1 thru 2 4,6 thru 8 = 1", LineKind::Rule),
    (b"-5 thru +07 = 007", LineKind::Rule),
    (b"-2147483647 thru 2147483647 = 1", LineKind::Rule),
    (b"1 = 2147483647", LineKind::Rule),
    (b"2 = NULL", LineKind::Rule),
    (b"2 = null", LineKind::Rule),
    (b"2 = NULL no label", LineKind::Rule),
    (b"* = *", LineKind::Rule),
    (b"*=5 rest", LineKind::Rule),
    (b"* = NULL", LineKind::Rule),
    (b"*,=5", LineKind::Rule),
    (b"*,=*", LineKind::Rule),
    (b"1 = 5 a = b", LineKind::Rule),
    (b"1 = 5   ", LineKind::Rule),
    (b"", LineKind::Skipped),
    (b" \t\r", LineKind::Skipped),
    (b"# x", LineKind::Skipped),
    (b"\t # 1 = 2", LineKind::Skipped),
    (b"end", LineKind::End),
    (b" end\r", LineKind::End),
    (b"\tend ", LineKind::End),
];

const BAD: [(&[u8], RuleFault); 34] = [
    (b"1", RuleFault::BadRule),
    (b"1 2", RuleFault::BadRule),
    (b"=", RuleFault::BadRule),
    (b"= 3", RuleFault::BadRule),
    (b", = 3", RuleFault::BadRule),
    (b"1 =", RuleFault::BadRule),
    (b"1 thru = 3", RuleFault::BadRule),
    (b"thru 3 = 3", RuleFault::BadRule),
    (b"1 thru 2 thru 3 = 4", RuleFault::BadRule),
    (b"1 thru * = 4", RuleFault::BadRule),
    (b"* thru 3 = 4", RuleFault::BadRule),
    (b"* 1 = 4", RuleFault::BadRule),
    (b"1 * = 4", RuleFault::BadRule),
    (b"* * = 4", RuleFault::BadRule),
    (b"3 = *", RuleFault::BadRule),
    (b"3 = thru", RuleFault::BadRule),
    (b"* = thru", RuleFault::BadRule),
    (b"x = thru", RuleFault::BadRule),
    (b"1 thru x =", RuleFault::BadRule),
    (b"end,", RuleFault::BadRule),
    (b",# x", RuleFault::BadRule),
    (b"end x", RuleFault::BadRule),
    (b"End", RuleFault::BadRule),
    (b"x = 3", RuleFault::BadNumber),
    (b"3 = x", RuleFault::BadNumber),
    (b"1 thru x = 3", RuleFault::BadNumber),
    (b"NULL = 3", RuleFault::BadNumber),
    (b"3 = Null", RuleFault::BadNumber),
    (b"1 = 2=3", RuleFault::BadNumber),
    (b"1 = 2,3", RuleFault::BadNumber),
    (b"1.5 = 3", RuleFault::BadNumber),
    (b"- = 3", RuleFault::BadNumber),
    (b"1 = 99999999999", RuleFault::BadNumber),
    (b"-2147483648 = 1", RuleFault::BadNumber),
];

#[test]
fn good_lines(rt: HostRuntime) -> Result<(), Fail> {
    for (line, kind) in &GOOD {
        let mut rules = Rules::new(rt.alloc());
        assert!(rt; rules.add_line(*line) == Ok(*kind), "the line {line:?}");
    }
    Ok(())
}

// Checks that a rule that is added after an invalid line is the only rule.
fn expect_one_rule<R: Abort>(rt: &R, rules: &mut Rules, line: &[u8]) {
    assert!(rt;
        rules.add_line(b"1 = 2") == Ok(LineKind::Rule),
        "a line after {line:?}"
    );
    let null = rules.apply(Cell::null()).get();
    assert!(rt; null != Some(2), "null after {line:?}");
    let found = (new_category(rules, 1), new_category(rules, 3));
    assert_same!(rt; found, (Some(2), None), "a category, and no more rules after {line:?}");
}

#[test]
fn bad_lines(rt: HostRuntime) -> Result<(), Fail> {
    for (line, fault) in &BAD {
        let mut rules = Rules::new(rt.alloc());
        assert!(rt; rules.add_line(*line) == Err(*fault), "the line {line:?}");
        expect_one_rule(&rt, &mut rules, *line);
    }
    Ok(())
}
