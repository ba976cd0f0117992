//! Tests with worked maps.

use cell_cats::reclassing::reclass;
use cell_cats::rules::Rules;
use cell_core_test_maps::assert_same;
use cell_core_test_maps::maps::{NULL_CATEGORY, categories_of_map, map_of_categories};
use std::alloc::AllocGlobal;
use std::process::Abort;
use std::test::Fail;

// A test case: rule lines, the categories of a map in rows of four, its new categories, and a new category with its
// label.
struct Case {
    lines: &'static [&'static [u8]],
    given: &'static [i32],
    wanted: &'static [i32],
    category: i32,
    label: Option<&'static [u8]>,
}

const LEGEND: [i32; 12] = [1, 1, 2, NULL_CATEGORY, 1, 2, 2, 2, 3, 3, 1, 1];

const CASES: [Case; 15] = [
    Case {
        lines: &[b"1 thru 3 = 7 low", b"2 = NULL", b"* = *"],
        given: &[1, 2, 3, 9, NULL_CATEGORY, 0, 4, -7],
        wanted: &[7, NULL_CATEGORY, 7, 9, NULL_CATEGORY, 0, 4, -7],
        category: 7,
        label: Some(b"low"),
    },
    Case {
        lines: &[b"1 thru 3 = 7 low", b"2 = NULL", b"* = *"],
        given: &LEGEND,
        wanted: &[
            7,
            7,
            NULL_CATEGORY,
            NULL_CATEGORY,
            7,
            NULL_CATEGORY,
            NULL_CATEGORY,
            NULL_CATEGORY,
            7,
            7,
            7,
            7,
        ],
        category: 9,
        label: None,
    },
    Case {
        lines: &[b"-2147483647 thru 2147483647 = 1"],
        given: &LEGEND,
        wanted: &[1, 1, 1, NULL_CATEGORY, 1, 1, 1, 1, 1, 1, 1, 1],
        category: 1,
        label: None,
    },
    Case {
        lines: &[b"1 = 5 a", b"2 = 5", b"3 = 5 b", b"* = 6"],
        given: &LEGEND,
        wanted: &[5, 5, 5, NULL_CATEGORY, 5, 5, 5, 5, 5, 5, 5, 5],
        category: 5,
        label: Some(b"b"),
    },
    Case {
        lines: &[b"1 = 5 a", b"2 = 5", b"3 = 5 b", b"* = 6"],
        given: &[1, 2, 3, 4],
        wanted: &[5, 5, 5, 6],
        category: 6,
        label: None,
    },
    Case {
        lines: &[],
        given: &[1, 2, 3, NULL_CATEGORY],
        wanted: &[NULL_CATEGORY, NULL_CATEGORY, NULL_CATEGORY, NULL_CATEGORY],
        category: 1,
        label: None,
    },
    Case {
        lines: &[b"1 = 2", b"1 = 3"],
        given: &[1, 2, 3, NULL_CATEGORY],
        wanted: &[3, NULL_CATEGORY, NULL_CATEGORY, NULL_CATEGORY],
        category: 3,
        label: None,
    },
    Case {
        lines: &[b"* = 8", b"1 = 2", b"* = 9"],
        given: &[1, 2, 3, NULL_CATEGORY],
        wanted: &[2, 9, 9, NULL_CATEGORY],
        category: 8,
        label: None,
    },
    Case {
        lines: &[b"5 thru 3, 9 = 1"],
        given: &[2, 3, 4, 5, 6, 8, 9, 10],
        wanted: &[
            NULL_CATEGORY,
            1,
            1,
            1,
            NULL_CATEGORY,
            NULL_CATEGORY,
            1,
            NULL_CATEGORY,
        ],
        category: 1,
        label: None,
    },
    Case {
        lines: &[
            b" 1, 2\t,3 =\t4 \r",
            b"5\t thru,7\t= NULL gone \r",
            b"*,=*\r",
        ],
        given: &[1, 2, 3, 4, 5, 6, 7, 8],
        wanted: &[4, 4, 4, 4, NULL_CATEGORY, NULL_CATEGORY, NULL_CATEGORY, 8],
        category: 4,
        label: None,
    },
    Case {
        lines: &[b"1 = 5  a = b  c \r"],
        given: &[1, 1, 5, NULL_CATEGORY],
        wanted: &[5, 5, NULL_CATEGORY, NULL_CATEGORY],
        category: 5,
        label: Some(b"a = b  c"),
    },
    Case {
        lines: &[b"1 = 5 a", b"2 = 5 \t"],
        given: &[1, 2, 3, NULL_CATEGORY],
        wanted: &[5, 5, NULL_CATEGORY, NULL_CATEGORY],
        category: 5,
        label: Some(b"a"),
    },
    Case {
        lines: &[b"1 = NULL a", b"* = * b"],
        given: &[1, 2, 3, NULL_CATEGORY],
        wanted: &[NULL_CATEGORY, 2, 3, NULL_CATEGORY],
        category: 2,
        label: None,
    },
    Case {
        lines: &[b"1 = 2", b"* = 4 rest"],
        given: &[1, 2, 3, NULL_CATEGORY],
        wanted: &[2, 4, 4, NULL_CATEGORY],
        category: 4,
        label: Some(b"rest"),
    },
    Case {
        lines: &[b"7 = 8 never"],
        given: &[1, 2, 3, NULL_CATEGORY],
        wanted: &[NULL_CATEGORY, NULL_CATEGORY, NULL_CATEGORY, NULL_CATEGORY],
        category: 8,
        label: Some(b"never"),
    },
];

// Checks the map that the rules of a case produce.
fn expect_case<R: Abort + AllocGlobal>(rt: &R, case: &Case) -> Result<(), Fail> {
    let mut rules = Rules::new(rt.alloc());
    for line in case.lines {
        assert!(rt; rules.add_line(*line).is_ok(), "the line {line:?}");
    }
    let map = map_of_categories(rt.alloc(), case.given, 4)?.ok_or("no map")?;
    let made = reclass(rt.alloc(), &map, &rules)?;
    let categories = categories_of_map(rt.alloc(), &made)?;
    assert_same!(rt; categories.as_slice(), case.wanted);
    assert_same!(rt; made.label(case.category), case.label);
    Ok(())
}

#[test]
fn worked_maps(rt: HostRuntime) -> Result<(), Fail> {
    for case in &CASES {
        expect_case(&rt, case)?;
    }
    Ok(())
}
