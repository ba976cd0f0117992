//! Tests of the four errors of a region, in their order.

use cell_core::region::{Region, RegionFault};
use cell_core_test_maps::assert_same;
use std::test::Fail;

const FAR: i64 = 1000000000000000000;

#[test]
fn reports_the_first_fault(rt: HostRuntime) {
    let table = [
        (1, 0, 1, 0, 46340, 46341, None),
        (1, 0, 1, 0, 46341, 46341, Some(RegionFault::TooManyCells)),
        (1, 0, 1, 0, 65535, 1, None),
        (1, 0, 1, 0, 1, 65535, None),
        (1, 0, 1, 0, 65536, 1, Some(RegionFault::BadRows)),
        (1, 0, 1, 0, 1, 65536, Some(RegionFault::BadCols)),
        (1, 0, 1, 0, 0, 0, Some(RegionFault::BadRows)),
        (1, 0, 1, 0, 1, 0, Some(RegionFault::BadCols)),
        (1, 0, 1, 0, 65535, 32768, None),
        (1, 0, 1, 0, 32768, 1, None),
        (1, 0, 1, 0, 65535, 32769, Some(RegionFault::TooManyCells)),
        (0, 0, 1, 0, 65535, 32769, Some(RegionFault::BadExtent)),
        (0, 0, 1, 0, 65536, 1, Some(RegionFault::BadExtent)),
        (1, 0, 0, 0, 1, 1, Some(RegionFault::BadExtent)),
        (FAR, 0, 1, 0, 1, 1, Some(RegionFault::BadExtent)),
        (1, -FAR, 1, 0, 1, 1, Some(RegionFault::BadExtent)),
        (FAR - 1, 1 - FAR, FAR - 1, 1 - FAR, 1, 1, None),
    ];
    for &(north, south, east, west, rows, cols, fault) in &table {
        let region = Region::new(north, south, east, west, rows, cols);
        assert_same!(rt; region.err(), fault, "{north} {south} {rows} {cols}");
    }
}

#[test]
fn keeps_its_six_numbers(rt: HostRuntime) -> Result<(), Fail> {
    let region = Region::new(400000000, 300000000, 200000000, 100000000, 6, 5)?;
    assert_same!(rt; (region.north(), region.south()), (400000000, 300000000));
    assert_same!(rt; (region.east(), region.west()), (200000000, 100000000));
    assert_same!(rt; (region.rows(), region.cols()), (6, 5));
    for (cols, is_same) in [(5, true), (4, false)] {
        let other = Region::new(400000000, 300000000, 200000000, 100000000, 6, cols)?;
        assert_same!(rt; region == other, is_same);
    }
    Ok(())
}
