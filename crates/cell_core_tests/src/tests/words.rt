//! Tests of blanks, words, parts and pairs.

use cell_core_test_maps::assert_same;
use cell_core_values::blanks::{
    is_blank, split_at_first_blank, trimmed_text, without_leading_blanks,
};
use cell_core_values::words::{
    parts_between_commas, texts_around_equals_sign, words_between_blanks_or_commas, words_of_line,
};
use std::alloc::AllocGlobal;
use std::process::Abort;
use std::test::Fail;

#[test]
fn three_bytes_are_blanks(rt: HostRuntime) {
    for byte in 0..=255u8 {
        assert_same!(rt; is_blank(byte), b" \t\r".contains(&byte), "the byte {byte}");
    }
}

#[test]
fn takes_blanks_from_both_ends(rt: HostRuntime) -> Result<(), Fail> {
    let table: [(&[u8], &[u8], &[u8]); 7] = [
        (b"a b", b"a b", b"a b"),
        (b" \t a b\r", b"a b\r", b"a b"),
        (b"", b"", b""),
        (b" \t\r", b"", b""),
        (b"\r\r x", b"x", b"x"),
        (b"\x0ba\x0c ", b"\x0ba\x0c ", b"\x0ba\x0c"),
        (b" a\n ", b"a\n ", b"a\n"),
    ];
    for &(text, after, wanted) in &table {
        assert_same!(rt; without_leading_blanks(text), after, "the text {text:?}");
        assert_same!(rt; trimmed_text(text), wanted, "the text {text:?}");
    }
    Ok(())
}

#[test]
fn cuts_at_the_first_blank(rt: HostRuntime) -> Result<(), Fail> {
    let table: [(&[u8], &[u8], &[u8]); 6] = [
        (b"7 low land", b"7", b"low land"),
        (b"7", b"7", b""),
        (b"7\t", b"7", b""),
        (b"7  low", b"7", b" low"),
        (b" 7", b"", b"7"),
        (b"", b"", b""),
    ];
    for &(text, before, after) in &table {
        assert!(rt;
            split_at_first_blank(text) == (before, after),
            "the text {text:?}"
        );
    }
    Ok(())
}

#[test]
fn cuts_at_the_first_equals_sign(rt: HostRuntime) -> Result<(), Fail> {
    let table: [(&[u8], Option<(&[u8], &[u8])>); 6] = [
        (b"1 2 = 3", Some((b"1 2 ", b" 3"))),
        (b"a=b=c", Some((b"a", b"b=c"))),
        (b"=b", Some((b"", b"b"))),
        (b"=", Some((b"", b""))),
        (b"a", None),
        (b"", None),
    ];
    for &(text, wanted) in &table {
        assert!(rt;
            texts_around_equals_sign(text) == wanted,
            "the text {text:?}"
        );
    }
    Ok(())
}

fn expect<R: Abort + AllocGlobal>(rt: &R, found: &[&[u8]], wanted: &[&[u8]], text: &[u8]) {
    assert!(rt; found == wanted, "the text {text:?}");
}

#[test]
fn finds_words_and_parts(rt: HostRuntime) -> Result<(), Fail> {
    let alloc = rt.alloc();
    for text in [b" a,\tb  c\r".as_slice(), b"a, b c"] {
        expect(
            &rt,
            &words_of_line(alloc, text)?,
            &[b"a,", b"b", b"c"],
            text,
        );
        expect(
            &rt,
            &words_between_blanks_or_commas(alloc, text)?,
            &[b"a", b"b", b"c"],
            text,
        );
    }
    for text in [b"".as_slice(), b" \t\r "] {
        expect(&rt, &words_of_line(alloc, text)?, &[], text);
        expect(
            &rt,
            &words_between_blanks_or_commas(alloc, text)?,
            &[],
            text,
        );
    }
    expect(
        &rt,
        &words_between_blanks_or_commas(alloc, b",1,,2 ,")?,
        &[b"1", b"2"],
        b",1,,2 ,",
    );
    expect(
        &rt,
        &parts_between_commas(alloc, b",1,,2 ,")?,
        &[b"", b"1", b"", b"2 ", b""],
        b",1,,2 ,",
    );
    expect(&rt, &parts_between_commas(alloc, b"")?, &[b""], b"");
    expect(
        &rt,
        &parts_between_commas(alloc, b"1 2")?,
        &[b"1 2"],
        b"1 2",
    );
    Ok(())
}
