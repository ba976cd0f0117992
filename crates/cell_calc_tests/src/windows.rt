//! Tests of windows over the worked map, row by row, and of how far an expression reaches.

ghost use Rattle.std.specs.Prelude.{◌≡◌};

use crate::tests::{NULL, at, bound_of, number_of, values, worked_map, worked_names};
use cell_calc::RowWindow;
use cell_core::name::{Name, Names};
use cell_core_test_maps::assert_same;
use std::alloc::Global;
use std::process::Abort;
use std::test::Fail;

// Checks cells of a window that reaches one row up and down. Each is given as its distance below the centre, its
// column, and its number.
fn expect_window<R: Abort>(
    rt: &R,
    window: &RowWindow,
    wanted: &[(i32, i64, i32)],
) -> Result<(), Fail>
    requires above { window.now.above ≡ 1 }
    requires below { window.now.below ≡ 1 }
{
    for (down, col, number) in wanted {
        if *down < -1 || 1 < *down {
            return Err("out of reach".into());
        }
        assert_same!(rt;
            number_of(window.cell(*down, *col)),
            *number,
            "{down} {col}"
        );
    }
    Ok(())
}

#[test]
fn a_window_moves_down_the_map(rt: HostRuntime) -> Result<(), Fail> {
    let map = worked_map(rt.alloc())?;
    if map.region().rows() != 3 {
        return Err("no three rows".into());
    }
    let Ok(mut window) = RowWindow::new(rt.alloc(), &map, 1, 1) else {
        return Err("no memory".into());
    };
    assert_same!(rt; (window.centre(), window.capacity()), (0, 3));
    expect_window(
        &rt,
        &window,
        &[(-1, 0, NULL), (0, -1, NULL), (1, 0, 1), (1, 4, NULL)],
    )?;
    window.advance(&map);
    assert_same!(rt; window.centre(), 1);
    expect_window(&rt, &window, &[(-1, 2, 2), (1, 0, 3)])?;
    window.advance(&map);
    assert_same!(rt; window.centre(), 2);
    expect_window(&rt, &window, &[(1, 0, NULL), (-1, 3, 2)])
}

#[test]
fn an_expression_reaches_rows(rt: HostRuntime) -> Result<(), Fail> {
    let alloc = rt.alloc();
    let bound = bound_of(alloc, &worked_names(alloc)?, b"g[1,0] + g[-1,0]")?;
    assert_same!(rt; bound.top(), 1);
    if bound.top() > 0 {
        assert_same!(rt; bound.reach(0), (1, 1));
    }
    Ok(())
}

#[test]
fn an_expression_reads_the_rows_that_it_reaches(rt: HostRuntime) -> Result<(), Fail> {
    let map = values(rt.alloc(), b"g[1,0] + g[-1,0]")?;
    for &(col, wanted) in &[(0, 4), (1, 4), (2, 3), (3, NULL)] {
        assert_same!(rt; at(&map, 1, col), wanted, "column {col}");
    }
    Ok(())
}

fn five_names(alloc: Global) -> Result<Names, Fail> {
    let mut names = Names::new(alloc);
    for text in [b"a", b"b", b"c", b"d", b"e"] {
        let name = Name::read(alloc, text)?;
        if names.find(name.bytes()).is_some() {
            return Err("a name twice".into());
        }
        names.push(name)?;
    }
    Ok(names)
}

#[test]
fn an_expression_is_put_over_just_the_maps_that_it_reads(rt: HostRuntime) -> Result<(), Fail> {
    let alloc = rt.alloc();
    let names = five_names(alloc)?;
    let bound = bound_of(alloc, &names, b"d * max(b[2,0], b[-1,0], 7) + d[1,1]")?;
    assert_same!(rt; bound.top(), 4);
    let (compact, places) = bound.renumbered_over_read_maps(alloc)?;
    assert_same!(rt; places.as_slice(), [3, 1].as_slice());
    if compact.top() != 2 {
        return Err("not over two maps".into());
    }
    assert_same!(rt; (compact.reach(0), compact.reach(1)), ((0, 1), (1, 2)));
    Ok(())
}
