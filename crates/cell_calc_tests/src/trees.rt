//! Tests of the trees of texts: levels, directions, calls and offsets.

use cell_calc_grammar::map_name::MapNameAtColumn;
use cell_calc_grammar::step::Step;
use cell_calc_language::assignment::parse;
use cell_calc_language::function::Function;
use cell_calc_language::operator::Operator;
use cell_core_test_maps::assert_same;
use std::alloc::{AllocGlobal, Global};
use std::process::Abort;
use std::test::Fail;

fn sign_of(operator: Operator) -> &'static [u8] {
    match operator {
        Operator::Times => b"*",
        Operator::Divide => b"/",
        Operator::Modulo => b"%",
        Operator::Plus => b"+",
        Operator::Minus => b"-",
        Operator::Less => b"<",
        Operator::LessEqual => b"<=",
        Operator::Greater => b">",
        Operator::GreaterEqual => b">=",
        Operator::Equal => b"==",
        Operator::NotEqual => b"!=",
        Operator::And => b"&&",
        Operator::Or => b"||",
        Operator::KnownAnd => b"&&&",
        Operator::KnownOr => b"|||",
    }
}

fn name_of(function: Function) -> &'static [u8] {
    match function {
        Function::If => b"if",
        Function::IsNull => b"isnull",
        Function::Null => b"null",
        Function::Abs => b"abs",
        Function::Min => b"min",
        Function::Max => b"max",
        Function::Mode => b"mode",
        Function::Row => b"row",
        Function::Column => b"col",
        Function::RowCount => b"nrows",
        Function::ColumnCount => b"ncols",
        Function::Eval => b"eval",
        Function::KnownMin => b"nmin",
        Function::KnownMax => b"nmax",
        Function::KnownMode => b"nmode",
    }
}

fn write_number(alloc: Global, n: i64, out: &mut Vec<u8>) -> Result<(), Fail> {
    let digits = format!(in alloc; "{n}")?;
    out.extend_from_slice(digits.as_bytes())?;
    Ok(())
}

fn write_map(
    alloc: Global,
    name: &[u8],
    offset: (i32, i32),
    column: u32,
    out: &mut Vec<u8>,
) -> Result<(), Fail> {
    out.extend_from_slice(name)?;
    out.push(b'[')?;
    write_number(alloc, i64::from(offset.0), out)?;
    out.push(b',')?;
    write_number(alloc, i64::from(offset.1), out)?;
    out.extend_from_slice(b"]@")?;
    write_number(alloc, i64::from(column), out)
}

// Writes a sign and the operand on top of the stack, in parentheses.
fn write_unary(sign: u8, stack: &mut Vec<Vec<u8>>, out: &mut Vec<u8>) -> Result<(), Fail> {
    let operand = stack.pop().ok_or("no operand")?;
    out.push(b'(')?;
    out.push(sign)?;
    out.extend_from_slice(&operand)?;
    out.push(b')')?;
    Ok(())
}

fn write_binary(
    operator: Operator,
    stack: &mut Vec<Vec<u8>>,
    out: &mut Vec<u8>,
) -> Result<(), Fail> {
    let right = stack.pop().ok_or("no right operand")?;
    let left = stack.pop().ok_or("no left operand")?;
    out.push(b'(')?;
    out.extend_from_slice(&left)?;
    out.extend_from_slice(sign_of(operator))?;
    out.extend_from_slice(&right)?;
    out.push(b')')?;
    Ok(())
}

// Writes a call with `count` arguments from the stack, each followed by a semicolon.
fn write_call(
    alloc: Global,
    function: Function,
    count: usize,
    stack: &mut Vec<Vec<u8>>,
    out: &mut Vec<u8>,
) -> Result<(), Fail> {
    let mut last_first = Vec::new(alloc);
    for _ in 0..count {
        last_first.push(stack.pop().ok_or("no argument")?)?;
    }
    out.extend_from_slice(name_of(function))?;
    out.push(b'(')?;
    for argument in last_first.iter().rev() {
        out.extend_from_slice(argument)?;
        out.push(b';')?;
    }
    out.push(b')')?;
    Ok(())
}

// Returns the tree that steps build, as text with parentheses around each operator.
fn tree_of(alloc: Global, steps: &[Step<MapNameAtColumn>]) -> Result<Vec<u8>, Fail> {
    let mut stack = Vec::new(alloc);
    for step in steps {
        let mut out = Vec::new(alloc);
        match step {
            Step::Number(n) => write_number(alloc, i64::from(*n), &mut out)?,
            Step::Map { leaf, down, right } => {
                let name = leaf.name.bytes();
                write_map(alloc, name, (*down, *right), leaf.column, &mut out)?
            }
            Step::Negated => write_unary(b'-', &mut stack, &mut out)?,
            Step::Not => write_unary(b'!', &mut stack, &mut out)?,
            Step::Binary(operator) => write_binary(*operator, &mut stack, &mut out)?,
            Step::Call(f, count) => write_call(alloc, *f, *count, &mut stack, &mut out)?,
        }
        stack.push(out)?;
    }
    let tree = stack.pop().ok_or("no step")?;
    if stack.is_empty() {
        Ok(tree)
    } else {
        Err("steps of more than one tree".into())
    }
}

// Parses `x = EXPRESSION` and returns its tree as text.
fn written(alloc: Global, expression: &[u8]) -> Result<Vec<u8>, Fail> {
    let mut text = b"x = ".to_vec(alloc)?;
    text.extend_from_slice(expression)?;
    if text.len() > 65535 {
        return Err("too long".into());
    }
    let read = parse(alloc, &text)?;
    tree_of(alloc, read.expr.steps())
}

// Checks the tree of each expression.
fn expect_trees<R: Abort + AllocGlobal>(rt: &R, table: &[(&[u8], &[u8])]) -> Result<(), Fail> {
    for (text, tree) in table {
        let found = written(rt.alloc(), text)?;
        assert_same!(rt; found.as_slice(), *tree, "{text:?}");
    }
    Ok(())
}

// Expressions with operators of two adjacent levels, each with its tree.
const NEIGHBOURING_LEVELS: [(&[u8], &[u8]); 17] = [
    (b"-1 * 2", b"((-1)*2)"),
    (b"1 / !2", b"(1/(!2))"),
    (b"!0 + 1", b"((!0)+1)"),
    (b"1 * 2 + 3", b"((1*2)+3)"),
    (b"1 + 2 % 3", b"(1+(2%3))"),
    (b"1 - 2 < 3", b"((1-2)<3)"),
    (b"1 >= 2 + 3", b"(1>=(2+3))"),
    (b"2 < 3 == 1", b"((2<3)==1)"),
    (b"1 != 2 <= 3", b"(1!=(2<=3))"),
    (b"1 == 2 && 3", b"((1==2)&&3)"),
    (b"1 &&& 2 != 3", b"(1&&&(2!=3))"),
    (b"1 && 2 || 3", b"((1&&2)||3)"),
    (b"1 || 2 && 3", b"(1||(2&&3))"),
    (b"5 ||| 6 && 0", b"(5|||(6&&0))"),
    (b"1 &&& 2 ||| 3", b"((1&&&2)|||3)"),
    (b"1 || 2 ? 3 : 4", b"if((1||2);3;4;)"),
    (b"1 ? 2 : 3 ||| 4", b"if(1;2;(3|||4);)"),
];

#[test]
fn neighbouring_levels(rt: HostRuntime) -> Result<(), Fail> {
    expect_trees(&rt, &NEIGHBOURING_LEVELS)
}

// Expressions with operators of one level, each with its tree.
const ONE_LEVEL: [(&[u8], &[u8]); 13] = [
    (b"10 - 4 - 3", b"((10-4)-3)"),
    (b"8 / 2 % 3 * 4", b"(((8/2)%3)*4)"),
    (b"1 - 2 + 3", b"((1-2)+3)"),
    (b"1 < 2 <= 3 > 4 >= 5", b"((((1<2)<=3)>4)>=5)"),
    (b"1 == 2 != 3", b"((1==2)!=3)"),
    (b"1 && 0 &&& 2", b"((1&&0)&&&2)"),
    (b"1 &&& 0 && 2", b"((1&&&0)&&2)"),
    (b"1 ||| 2 || 3", b"((1|||2)||3)"),
    (b"1 || 2 ||| 3", b"((1||2)|||3)"),
    (b"- - 3", b"(-(-3))"),
    (b"-!-3", b"(-(!(-3)))"),
    (b"0 ? 5 : 1 ? 6 : 7", b"if(0;5;if(1;6;7;);)"),
    (b"1 ? 2 ? 3 : 4 : 5", b"if(1;if(2;3;4;);5;)"),
];

#[test]
fn one_level_goes_from_the_left(rt: HostRuntime) -> Result<(), Fail> {
    expect_trees(&rt, &ONE_LEVEL)
}

// Expressions with various operands, each with its tree.
const OPERANDS: [(&[u8], &[u8]); 17] = [
    (b"10 - (4 - 3)", b"(10-(4-3))"),
    (b"(1 + 2) * 3", b"((1+2)*3)"),
    (b"((7))", b"7"),
    (b"g", b"g[0,0]@5"),
    (b"g[-255,+255]", b"g[-255,255]@5"),
    (b"-g[1,0] + g[-1,0]", b"((-g[1,0]@6)+g[-1,0]@15)"),
    (b"if", b"if[0,0]@5"),
    (b"if(1) + isnull(2)", b"(if(1;)+isnull(2;))"),
    (b"null() - abs(1)", b"(null()-abs(1;))"),
    (b"min(1,2) + max(3,4)", b"(min(1;2;)+max(3;4;))"),
    (b"mode(2,1,2)", b"mode(2;1;2;)"),
    (b"row() * 10 + col()", b"((row()*10)+col())"),
    (b"nrows() * 100 + ncols()", b"((nrows()*100)+ncols())"),
    (b"eval(null(), 4)", b"eval(null();4;)"),
    (b"nmin(1,2) + nmax(3,4)", b"(nmin(1;2;)+nmax(3;4;))"),
    (b"nmode(2,null(),1)", b"nmode(2;null();1;)"),
    (b"if(1,2) + if(1,2,3)", b"(if(1;2;)+if(1;2;3;))"),
];

#[test]
fn operands(rt: HostRuntime) -> Result<(), Fail> {
    expect_trees(&rt, &OPERANDS)
}
