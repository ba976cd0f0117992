//! Tests of the printed text of a table and of cells. Other texts are in cases/.

use super::maps::{add, are_picks, filled, shelf_of};
use cell_core::block::OutputBlock;
use cell_core::shelf::Shelf;
use cell_core::sink::MemorySink;
use cell_core_test_maps::assert_same;
use cell_core_test_maps::maps::NULL_CATEGORY;
use cell_stats::combination::Combo;
use cell_stats::format::TableFormat;
use cell_stats::printed_cells::{CellWalkMemory, write_line_for_each_cell};
use cell_stats::printing::write_table;
use cell_stats::skip::Skip;
use cell_stats::tallying::tally;
use std::alloc::{AllocGlobal, Global};
use std::test::Fail;

// Returns the text of a table after a combination.
fn table_text(
    alloc: Global,
    shelf: &Shelf,
    picks: &[usize],
    format: &TableFormat,
    after: &[u8],
) -> Result<Vec<u8>, Fail> {
    if !are_picks(shelf, picks) {
        return Err(Fail::from("no picks"));
    }
    let table = tally(alloc, shelf, picks, Skip::Nothing)?;
    let combo = Combo::read(alloc, after, picks.len())?;
    if combo.len() != picks.len() {
        return Err(Fail::from("another width"));
    }
    let mut out = MemorySink::new(vec![in alloc; 0u8; 100]?, 3, false);
    let mut block = OutputBlock::new();
    write_table(
        &mut out,
        &mut block,
        &table,
        Some(&combo),
        shelf,
        picks,
        format,
    );
    block.empty(&mut out);
    Ok(Vec::from_slice(alloc, out.bytes())?)
}

// Returns the text of all cells of a map.
fn cells_text(
    alloc: Global,
    shelf: &Shelf,
    picks: &[usize],
    format: &TableFormat,
) -> Result<Vec<u8>, Fail> {
    if !are_picks(shelf, picks) {
        return Err(Fail::from("no picks"));
    }
    let mut out = MemorySink::new(vec![in alloc; 0u8; 100]?, 3, false);
    let mut block = OutputBlock::new();
    let walk = CellWalkMemory::new(alloc, shelf, picks)?;
    let skip = Skip::Nothing;
    write_line_for_each_cell(&mut out, &mut block, walk, shelf, picks, skip, format);
    block.empty(&mut out);
    Ok(Vec::from_slice(alloc, out.bytes())?)
}

// Returns a shelf with a map and its reclassified map, in which one category has a label.
fn labelled_shelf(alloc: Global) -> Result<Shelf, Fail> {
    let mut shelf = shelf_of(alloc, &[&[1, 2, 3, 9, NULL_CATEGORY]], 5)?;
    let mut made = filled(alloc, &[7, NULL_CATEGORY, 7, 9, NULL_CATEGORY], 5)?;
    made.set_label(7, b"low")?;
    add(alloc, &mut shelf, b"r", made)?;
    Ok(shelf)
}

#[test]
fn lines_have_labels(rt: HostRuntime) -> Result<(), Fail> {
    let format = TableFormat::new(b'|', b"NA", true, true);
    let shelf = labelled_shelf(rt.alloc())?;
    let found = table_text(rt.alloc(), &shelf, &[1, 0], &format, b"7,1")?;
    let wanted = b"7|low|3||1\n9||9||1\nNA|no data|2||1\nNA|no data|NA|no data|1\n";
    assert_same!(rt; found.as_slice(), wanted.as_slice());
    let found = cells_text(rt.alloc(), &shelf, &[1], &format)?;
    let wanted = b"7|low\nNA|no data\n7|low\n9|\nNA|no data\n";
    assert_same!(rt; found.as_slice(), wanted.as_slice());
    Ok(())
}
