//! Tests of combinations in texts, of the entries after one, and of the most picks of a table.

use super::maps::{are_picks, shelf_of};
use cell_core::shelf::Shelf;
use cell_core_test_maps::assert_same;
use cell_core_test_maps::maps::NULL_CATEGORY;
use cell_stats::combination::Combo;
use cell_stats::combination_text::ComboFault;
use cell_stats::skip::Skip;
use cell_stats::table::Table;
use cell_stats::tallying::tally;
use std::alloc::{AllocGlobal, Global};
use std::test::Fail;

fn table_of(alloc: Global, shelf: &Shelf, picks: &[usize]) -> Result<Table, Fail> {
    if !are_picks(shelf, picks) {
        return Err(Fail::from("no picks"));
    }
    Ok(tally(alloc, shelf, picks, Skip::Nothing)?)
}

// Reads a combination of two categories from a text.
fn pair_of(alloc: Global, text: &[u8]) -> Result<[i32; 2], ComboFault> {
    let combo = Combo::read(alloc, text, 2)?;
    if combo.len() != 2 {
        return Err(ComboFault::BadWidth);
    }
    let first = combo.get(0).get().unwrap_or(NULL_CATEGORY);
    let second = combo.get(1).get().unwrap_or(NULL_CATEGORY);
    Ok([first, second])
}

// Texts, each with its two categories or its error.
const TEXTS: [(&[u8], Result<[i32; 2], ComboFault>); 12] = [
    (b"1,*", Ok([1, NULL_CATEGORY])),
    (b"*,*", Ok([NULL_CATEGORY, NULL_CATEGORY])),
    (b"-2147483647,+007", Ok([-2147483647, 7])),
    (b"1,x", Err(ComboFault::BadCombo)),
    (b"1", Err(ComboFault::BadWidth)),
    (b"1,2,3", Err(ComboFault::BadWidth)),
    (b"1,2,x", Err(ComboFault::BadCombo)),
    (b"1,-2147483648", Err(ComboFault::BadCombo)),
    (b"1,2147483648", Err(ComboFault::BadCombo)),
    (b"", Err(ComboFault::BadCombo)),
    (b"1,", Err(ComboFault::BadCombo)),
    (b"1, 2", Err(ComboFault::BadCombo)),
];

#[test]
fn texts_of_combinations(rt: HostRuntime) -> Result<(), Fail> {
    for &(text, want) in &TEXTS {
        assert_same!(rt; pair_of(rt.alloc(), text), want, "{text:?}");
    }
    Ok(())
}

// Returns the count of the first entry after the combination in a text, and the number of entries after it.
fn after(alloc: Global, table: &Table, text: &[u8]) -> Result<(Option<u64>, usize), Fail> {
    let combo = Combo::read(alloc, text, 2)?;
    if combo.len() != table.width() {
        return Err(Fail::from("another width"));
    }
    let mut first = None;
    let mut many: usize = 0;
    for entry in table.after(&combo) {
        if many == 0 {
            first = Some(entry.count);
        }
        many = many.wrapping_add(1);
    }
    Ok((first, many))
}

#[test]
fn entries_after_a_combination(rt: HostRuntime) -> Result<(), Fail> {
    let shelf = shelf_of(rt.alloc(), &[&[5, NULL_CATEGORY, 5, -3]], 2)?;
    let table = table_of(rt.alloc(), &shelf, &[0, 0])?;
    let found = after(rt.alloc(), &table, b"-3,-3")?;
    assert_same!(rt; found, (Some(2), 2));
    Ok(())
}

#[test]
fn sixteen_picks_of_one_map(rt: HostRuntime) -> Result<(), Fail> {
    let shelf = shelf_of(rt.alloc(), &[&[5, NULL_CATEGORY, 5, -3]], 2)?;
    let table = table_of(rt.alloc(), &shelf, &[0; 16])?;
    let wanted: [(i32, u64); 3] = [(-3, 1), (5, 2), (NULL_CATEGORY, 1)];
    assert_same!(rt; (table.width(), table.len()), (16, wanted.len()));
    for (entry, (category, count)) in table.all().zip(wanted) {
        assert_same!(rt; (entry.count, entry.combo.len()), (count, 16));
        for i in 0..entry.combo.len() {
            assert_same!(rt; entry.combo.get(i).get().unwrap_or(NULL_CATEGORY), category);
        }
    }
    Ok(())
}
