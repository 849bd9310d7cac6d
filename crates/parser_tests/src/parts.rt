//! Parts of texts: where reading an expression or a constant ends, and what may come where it is refused.

use constant_parser::constant;
use expression_parser::expression;
use slang_tokens::read_tokens;
use std::alloc::{AllocError, Global};
use std::process::Abort;
use std::test::Fail;
use token_cursor::{Cursor, Due, Stop};

/// A text, how reading ends, and how many tokens are left.
type Row = (&'static str, End, usize);

#[derive(Clone, Copy, Debug, PartialEq, Eq)]
enum End {
    Read,
    Refused(Due),
    NoMemory,
}

const READ: End = End::Read;

const OPERAND: End = End::Refused(Due::Operand);

const OTHER: End = End::Refused(Due::Other);

const EXPRESSIONS: [Row; 34] = [
    ("a", READ, 0),
    ("a + b * c", READ, 0),
    ("a + b ->: c", OTHER, 2),
    ("a ->: b ->: c", READ, 0),
    ("a ->: b + c", OTHER, 2),
    ("-f(x) + !!g", READ, 0),
    ("a(i ~> v + 1).f(3, 4,)(b)", READ, 0),
    ("a(i, j ~> v)", OTHER, 3),
    ("a(,)", OPERAND, 2),
    ("a()", READ, 0),
    ("a(1,,2)", OPERAND, 3),
    ("All(0 until n + 1)(i => a(i) == 0)", READ, 0),
    ("All(a.indices)(i => T)", READ, 0),
    ("All(a.b.indices)(i => T)", READ, 0),
    ("All((a.indices))(i => T)", OTHER, 6),
    ("All(-a.indices)(i => T)", OTHER, 6),
    ("All(a.indices until 3)(i => T)", READ, 0),
    ("All(a.indices + 1 until 3)(i => T)", READ, 0),
    ("All(a.size)(i => T)", OTHER, 6),
    ("All(a)(i => T)", OTHER, 6),
    ("\u{2203}(0 until 1)(_ => T)", OTHER, 4),
    ("Res", READ, 0),
    ("Res[ISZ[Z]].f", READ, 0),
    ("Res[Z", OTHER, 0),
    ("ISZ[Z]()", READ, 0),
    ("ISZ()", READ, 0),
    ("ISZ(1, 2,)", READ, 0),
    ("ISZ(,)", OPERAND, 2),
    ("In(x) + Old(y)", READ, 0),
    ("In(3)", OTHER, 2),
    ("(a", OTHER, 0),
    ("a b", READ, 1),
    ("a :+ b :+ 1 == c && d || e __>: f ___>: g", READ, 0),
    ("if", OPERAND, 1),
];

const CONSTANTS: [Row; 12] = [
    ("1", READ, 0),
    ("-1", READ, 0),
    ("- -1", OTHER, 2),
    ("T", READ, 0),
    ("ISZ(1,2,)", READ, 0),
    ("ISZ()", OTHER, 1),
    ("ISZ[Z]()", READ, 0),
    ("ISZ[Z](,)", OTHER, 2),
    ("P(1, Q(F), ISZ(ISZ[B]()))", READ, 0),
    ("P()", OTHER, 1),
    ("x", OTHER, 0),
    ("if", OTHER, 1),
];

fn end_of<T: Drop>(outcome: Result<T, Stop>) -> End {
    match outcome {
        Ok(_) => End::Read,
        Err(Stop::Refused(due)) => End::Refused(due),
        Err(Stop::NoMemory) => End::NoMemory,
    }
}

/// How an expression of these tokens ends.
fn expression_end(alloc: Global, text: &str) -> Result<(End, usize), AllocError> {
    let tokens = read_tokens(alloc, text)?;
    let mut cursor = Cursor::new(&tokens.list);
    let end = end_of(expression(alloc, 0, &mut cursor));
    Ok((end, cursor.rest().len()))
}

/// How a constant of these tokens ends.
fn constant_end(alloc: Global, text: &str) -> Result<(End, usize), AllocError> {
    let tokens = read_tokens(alloc, text)?;
    let mut cursor = Cursor::new(&tokens.list);
    let end = end_of(constant(alloc, &mut cursor));
    Ok((end, cursor.rest().len()))
}

#[test]
fn expressions_are_read(rt: HostRuntime) -> Result<(), Fail> {
    for &(text, end, left) in &EXPRESSIONS {
        let found = expression_end(rt.alloc(), text)?;
        assert!(rt; found == (end, left), "{text}");
    }
    Ok(())
}

#[test]
fn constants_are_read(rt: HostRuntime) -> Result<(), Fail> {
    for &(text, end, left) in &CONSTANTS {
        let found = constant_end(rt.alloc(), text)?;
        assert!(rt; found == (end, left), "{text}");
    }
    Ok(())
}
