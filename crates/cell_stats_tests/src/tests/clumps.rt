//! Tests that `clump` joins by edges. Larger maps are in cases/.

use cell_clumps::clump::clump;
use cell_core::cell::Cell;
use cell_core::map::MapBuilder;
use cell_core::region::Region;
use std::test::Fail;

#[test]
fn clump_is_by_edges(rt: HostRuntime) -> Result<(), Fail> {
    let (one, other) = (Cell::value(1).ok_or("null")?, Cell::value(2).ok_or("null")?);
    let region = Region::new(1, 0, 1, 0, 2, 2)?;
    let mut builder = MapBuilder::new(rt.alloc(), region);
    builder.push_row(&[one, other])?;
    builder.push_row(&[other, one])?;
    let numbers = clump(rt.alloc(), &builder.finish())?;
    let below = (numbers.cell(1, 0).get(), numbers.cell(1, 1).get());
    assert_eq!(rt; (below, numbers.label(1)), ((Some(3), Some(4)), None));
    Ok(())
}
