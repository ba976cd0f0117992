//! Tests of tokens and of errors in their spelling.

use cell_calc_language::calc_fault::{CalcFault, CalcKind};
use cell_calc_language::token::{Sign, Token, TokenAtColumn};
use cell_calc_language::tokens::tokens;
use cell_core_test_maps::assert_same;
use std::alloc::Global;
use std::test::Fail;

fn fault_of(alloc: Global, text: &[u8]) -> Option<CalcFault> {
    if text.len() > 65535 {
        return None;
    }
    tokens(alloc, text).err()
}

// Texts, each with the kind and column of its error.
const FAULTS: [(&[u8], CalcKind, u32); 7] = [
    (b"x = 1e3", CalcKind::FloatNumber, 5),
    (b"x = .", CalcKind::FloatNumber, 5),
    (b"x = 0 & 1", CalcKind::BadByte, 7),
    (b"x = 0\n", CalcKind::BadByte, 6),
    (b"x = 1a_2", CalcKind::BadNumber, 5),
    (b"x = 2147483648", CalcKind::BadNumber, 5),
    (b"x = 99999999999999999999999", CalcKind::BadNumber, 5),
];

#[test]
fn faults_of_tokens(rt: HostRuntime) {
    for &(text, kind, column) in &FAULTS {
        let fault = Some(CalcFault { kind, column });
        assert_same!(rt; fault_of(rt.alloc(), text), fault, "{kind} at {column}");
    }
    let name = [b'a'; 65];
    let fault = CalcFault {
        kind: CalcKind::BadName,
        column: 1,
    };
    assert_same!(rt; fault_of(rt.alloc(), &name), Some(fault));
    assert_same!(rt; fault_of(rt.alloc(), &name[1..]), None);
}

// Returns the column and the sign of a token, if it is a sign.
fn sign_of(placed: &TokenAtColumn) -> Option<(u32, Sign)> {
    match &placed.token {
        Token::Sign(sign) => Some((placed.column, *sign)),
        _ => None,
    }
}

#[test]
fn the_longest_sign_counts(rt: HostRuntime) -> Result<(), Fail> {
    let text = b"\t&&&&& |||| || <=< >== !!= ==";
    let found = tokens(rt.alloc(), &text[..9]).err();
    let fault = CalcFault {
        kind: CalcKind::BadByte,
        column: 11,
    };
    assert_same!(rt; found, None);
    assert_same!(rt; tokens(rt.alloc(), text).err(), Some(fault));
    let signs = tokens(rt.alloc(), b"\t&&&&& ||| || <=< >== !!= ==")?;
    let wanted = [
        (2, Sign::KnownAnd),
        (5, Sign::And),
        (8, Sign::KnownOr),
        (12, Sign::Or),
        (15, Sign::LessEqual),
        (17, Sign::Less),
        (19, Sign::GreaterEqual),
        (21, Sign::Assign),
        (23, Sign::Exclamation),
        (24, Sign::NotEqual),
        (27, Sign::Equal),
    ];
    assert_same!(rt; signs.len(), wanted.len());
    for (placed, wanted) in signs.iter().zip(wanted) {
        assert_same!(rt; sign_of(placed), Some(wanted));
    }
    Ok(())
}

#[test]
fn words_and_numbers(rt: HostRuntime) -> Result<(), Fail> {
    let found = tokens(rt.alloc(), b"a.b_1 007 2147483647")?;
    assert_same!(rt; found.len(), 3);
    for &(placed, column, number) in &[(0, 1, None), (1, 7, Some(7)), (2, 11, Some(2147483647))] {
        let Some(placed) = found.get(placed) else {
            return Err("a token".into());
        };
        assert_same!(rt; placed.column, column);
        match &placed.token {
            Token::Number(n) => assert_same!(rt; Some(*n), number),
            Token::Name(name) =>
                assert_same!(rt; (number, name.bytes()), (None, b"a.b_1".as_slice())),
            Token::Sign(_) => return Err("a sign".into()),
        }
    }
    Ok(())
}
