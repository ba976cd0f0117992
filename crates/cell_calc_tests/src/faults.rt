//! Tests of errors and their columns, and of how many arguments each function accepts.

use cell_calc_language::assignment::parse;
use cell_calc_language::calc_fault::{CalcFault, CalcKind};
use cell_core::name::{Name, Names};
use cell_core_test_maps::assert_same;
use std::alloc::Global;
use std::test::Fail;

pub(crate) fn fault_of(alloc: Global, text: &[u8]) -> Option<CalcFault> {
    if text.len() > 65535 {
        return None;
    }
    parse(alloc, text).err()
}

// Texts, each with the kind and column of its error.
const FAULTS: [(&[u8], CalcKind, u32); 34] = [
    (b"x = 1.5", CalcKind::FloatNumber, 5),
    (b"x = 1 +", CalcKind::Expected, 8),
    (b"x = foo(1)", CalcKind::UnknownFunction, 5),
    (b"x = min(1)", CalcKind::Arguments, 5),
    (b"x = g[256,0]", CalcKind::BadOffset, 7),
    (b"x = a ^ 2", CalcKind::BadByte, 7),
    (b"", CalcKind::Expected, 1),
    (b"x = 1 2", CalcKind::Expected, 7),
    (b"x = (1", CalcKind::Expected, 7),
    (b"x = 1 ? 2", CalcKind::Expected, 10),
    (b"x = a = b", CalcKind::Expected, 7),
    (b"x = if(1,2,3,4)", CalcKind::Arguments, 5),
    (b"x = null(1)", CalcKind::Arguments, 5),
    (b"x = foo(1.5)", CalcKind::FloatNumber, 9),
    (b"x = g[-256,0]", CalcKind::BadOffset, 8),
    (b"x = g[0,+256]", CalcKind::BadOffset, 10),
    (b"x = g[0;1]", CalcKind::BadByte, 8),
    (b"1a = 2", CalcKind::BadNumber, 1),
    (b"x = eval()", CalcKind::Arguments, 5),
    (b"x = nmin(1)", CalcKind::Arguments, 5),
    (b"x = 1 &&&& 1", CalcKind::BadByte, 10),
    (b"x = 1 |||| 1", CalcKind::BadByte, 10),
    (b"x = 1 &&&&& 1", CalcKind::Expected, 10),
    (b"x = min(1,)", CalcKind::Expected, 11),
    (b"foo(1) = 2", CalcKind::Expected, 4),
    (b"x = 1 +  ", CalcKind::Expected, 10),
    (b"x = ) ) )", CalcKind::Expected, 5),
    (b"x = 1 2 3", CalcKind::Expected, 7),
    (b"x = 1 2 foo(1)", CalcKind::Expected, 7),
    (b"x = foo(1) 2", CalcKind::UnknownFunction, 5),
    (b"x = min(1) 2", CalcKind::Arguments, 5),
    (b"x = g[256,0] 2", CalcKind::BadOffset, 7),
    (b"x = if(1,2,3,4 5", CalcKind::Expected, 16),
    (b"x = if(foo(1),2,3,4)", CalcKind::UnknownFunction, 8),
];

#[test]
fn faults_and_their_columns(rt: HostRuntime) {
    for &(text, kind, column) in &FAULTS {
        let fault = Some(CalcFault { kind, column });
        assert_same!(rt; fault_of(rt.alloc(), text), fault, "{kind} at {column}");
    }
}

#[test]
fn texts_without_a_fault(rt: HostRuntime) -> Result<(), Fail> {
    for text in [b"x = g[-255,+255]".as_slice(), b"x = 0 &&& 1", b"\tx=1\r"] {
        assert_same!(rt; fault_of(rt.alloc(), text), None);
    }
    let named = parse(rt.alloc(), b"if = 3")?;
    assert_same!(rt; named.target.bytes(), b"if".as_slice());
    Ok(())
}

// Returns `x = NAME(1,1, .. ,1)` with `count` arguments.
fn call(alloc: Global, name: &[u8], count: usize) -> Result<Vec<u8>, Fail> {
    let mut text = b"x = ".to_vec(alloc)?;
    text.extend_from_slice(name)?;
    text.push(b'(')?;
    for i in 0..count {
        text.extend_from_slice(if i == 0 { b"1".as_slice() } else { b",1" })?;
    }
    text.push(b')')?;
    Ok(text)
}

// Functions, each with its smallest and largest number of arguments.
const FUNCTIONS: [(&[u8], usize, usize); 15] = [
    (b"if", 1, 3),
    (b"isnull", 1, 1),
    (b"null", 0, 0),
    (b"abs", 1, 1),
    (b"min", 2, 300),
    (b"max", 2, 300),
    (b"mode", 2, 300),
    (b"row", 0, 0),
    (b"col", 0, 0),
    (b"nrows", 0, 0),
    (b"ncols", 0, 0),
    (b"eval", 1, 300),
    (b"nmin", 2, 300),
    (b"nmax", 2, 300),
    (b"nmode", 2, 300),
];

#[test]
fn functions_and_their_numbers_of_arguments(rt: HostRuntime) -> Result<(), Fail> {
    for &(name, least, greatest) in &FUNCTIONS {
        for count in [0, 1, 2, 3, 4, 300] {
            let text = call(rt.alloc(), name, count)?;
            let fault = if least <= count && count <= greatest {
                None
            } else {
                Some(CalcFault {
                    kind: CalcKind::Arguments,
                    column: 5,
                })
            };
            assert_same!(rt; fault_of(rt.alloc(), &text), fault, "{count} arguments");
        }
    }
    Ok(())
}

// Assignments over maps named g and if, each with the column of its first unknown name.
const UNKNOWN_NAMES: [(&[u8], Option<u32>); 6] = [
    (b"x = h", Some(5)),
    (b"x = g + if", None),
    (b"x = g * (k + -h)", Some(10)),
    (b"x = max(g, 1, !m[0,1], h)", Some(16)),
    (b"x = h ? g : g", Some(5)),
    (b"x = row()", None),
];

#[test]
fn the_first_unknown_name(rt: HostRuntime) -> Result<(), Fail> {
    let mut names = Names::new(rt.alloc());
    for name in [b"g".as_slice(), b"if"] {
        let name = Name::read(rt.alloc(), name)?;
        if names.find(name.bytes()).is_none() {
            names.push(name)?;
        }
    }
    for &(text, column) in &UNKNOWN_NAMES {
        let read = parse(rt.alloc(), text)?;
        assert_same!(rt; read.expr.first_unknown(&names), column);
    }
    Ok(())
}
