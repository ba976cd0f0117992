//! Tests of texts with a thousand tokens, and of longer ones.

use crate::faults::fault_of;
use cell_calc_language::calc_fault::{CalcFault, CalcKind};
use cell_core_test_maps::assert_same;
use std::alloc::Global;
use std::test::Fail;

// Returns `x =`, followed by `before` repeated `first` times, a 1, and `after` repeated `second` times.
fn repeated(
    alloc: Global,
    before: &[u8],
    first: u32,
    after: &[u8],
    second: u32,
) -> Result<Vec<u8>, Fail> {
    let mut text = b"x = ".to_vec(alloc)?;
    for _ in 0..first {
        text.extend_from_slice(before)?;
    }
    text.push(b'1')?;
    for _ in 0..second {
        text.extend_from_slice(after)?;
    }
    Ok(text)
}

// Texts before and after a 1, each with its number of repetitions, and the column of the first token beyond the limit.
const REPEATED: [(&[u8], u32, &[u8], u32, Option<u32>); 7] = [
    (b"-", 1, b" + 1", 498, None),
    (b"-", 2, b" + 1", 498, Some(1999)),
    (b"-", 997, b"", 0, None),
    (b"-", 998, b"", 0, Some(1003)),
    (b"(", 498, b")", 498, None),
    (b"abs(", 332, b")", 332, None),
    (b"", 0, b" ? 1 : 1", 249, None),
];

#[test]
fn a_thousand_tokens(rt: HostRuntime) -> Result<(), Fail> {
    for &(before, first, after, second, column) in &REPEATED {
        let text = repeated(rt.alloc(), before, first, after, second)?;
        let fault = column.map(|column| CalcFault {
            kind: CalcKind::TooLong,
            column,
        });
        assert_same!(rt; fault_of(rt.alloc(), &text), fault);
    }
    Ok(())
}

#[test]
fn what_follows_a_thousand_tokens_is_too_long(rt: HostRuntime) -> Result<(), Fail> {
    let mut text = repeated(rt.alloc(), b"-", 1, b" + 1", 498)?;
    text.push(b'$')?;
    let fault = CalcFault {
        kind: CalcKind::TooLong,
        column: 1999,
    };
    assert_same!(rt; fault_of(rt.alloc(), &text), Some(fault));
    Ok(())
}

// Parses the longest text, of 999 tokens with blanks after them, a hundred times. bench/parse.py times this test.
#[test]
fn the_longest_text(rt: HostRuntime) -> Result<(), Fail> {
    let mut text = repeated(rt.alloc(), b"", 0, b" + 1", 498)?;
    for _ in text.len()..65535 {
        text.push(b' ')?;
    }
    assert_same!(rt; text.len(), 65535);
    for _ in 0..100 {
        assert_same!(rt; fault_of(rt.alloc(), text.as_slice()), None);
    }
    Ok(())
}
