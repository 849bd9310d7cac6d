//! Texts, each with the code, the line and the column of its first fault, or with zeros where it has none.

use crate::scopes::scope;
use constant_parser::constant;
use slang_lexer::TokenKind;
use slang_tokens::read_tokens;
use slang_tree::{Fault, Name, Place, Stmt, Text};
use sqlite_items::Items;
use statement_judging::judged_stmts;
use statement_parser::stmt;
use std::alloc::Global;
use std::process::Abort;
use std::test::Fail;
use target_judging::{MayBeNamed, modifies};
use token_cursor::Cursor;
use type_faults::FirstFault;
use value_judging::declared_constant;

type Row = (&'static str, u8, u32, u32);

const STATEMENTS: [Row; 57] = [
    ("val y: Z = x + 1", 0, 0, 0),
    ("val y: Z = T", 8, 1, 12),
    ("val x = 1", 7, 1, 5),
    ("val y = u()", 8, 1, 9),
    ("val y: Q = 1", 6, 1, 8),
    ("val y: Unit = 1", 8, 1, 8),
    ("val y = y", 6, 1, 9),
    ("val y = 1\nv = y", 0, 0, 0),
    ("val y = 1\ny = 2", 10, 2, 1),
    ("var y = 1\ny = 2", 0, 0, 0),
    ("v = T", 8, 1, 5),
    ("x = 1", 10, 1, 1),
    ("k = 1", 10, 1, 1),
    ("h = T", 11, 1, 1),
    ("g = 1", 0, 0, 0),
    ("q = 1", 6, 1, 1),
    ("q = r", 6, 1, 1),
    ("e = T", 0, 0, 0),
    ("m = 1", 10, 1, 1),
    ("u()", 0, 0, 0),
    ("m(1)", 0, 0, 0),
    ("n()", 11, 1, 1),
    ("m()", 9, 1, 1),
    ("m(T)", 8, 1, 3),
    ("x()", 12, 1, 1),
    ("P(1)", 12, 1, 1),
    ("x(r)", 6, 1, 3),
    ("e()", 0, 0, 0),
    ("q(r)", 6, 1, 1),
    ("v = m(1)", 0, 0, 0),
    ("v = 1 + m(1)", 12, 1, 9),
    ("v = P(1).f", 0, 0, 0),
    ("a = ISZ(1, 2)", 0, 0, 0),
    ("if (x == 1) { val y = 1 } else { val y = T }", 0, 0, 0),
    ("if (x) { }", 8, 1, 5),
    ("if (T) { val y = 1 }\nv = y", 6, 2, 5),
    ("if (T) { } else { v = T }", 8, 1, 23),
    (
        "while (v < 3) { Invariant(Modifies(v), v <= 3); v = v + 1 }",
        0,
        0,
        0,
    ),
    ("while (T) { Invariant(Modifies(v), T); g = 1 }", 11, 1, 40),
    (
        "while (T) { Invariant(Modifies(v), T); var y = 1; y = 2 }",
        0,
        0,
        0,
    ),
    (
        "while (T) { Invariant(Modifies(v), T); v = 1 }\ng = 1",
        0,
        0,
        0,
    ),
    (
        "while (T) { Invariant(Modifies(v), T); val y = 1 }\nv = y",
        6,
        2,
        5,
    ),
    (
        "while (T) { Invariant(Modifies(v, v), T); v = 1 }",
        7,
        1,
        35,
    ),
    ("while (T) { Invariant(Modifies(x), T); v = 1 }", 10, 1, 32),
    ("while (T) { Invariant(Modifies(q), T); v = 1 }", 6, 1, 32),
    ("while (T) { Invariant(Modifies(v), v); v = 1 }", 8, 1, 36),
    ("assert(x)", 8, 1, 8),
    ("assert(All(0 until 3)(i => i < 3))", 0, 0, 0),
    ("assert(Res == 1)", 15, 1, 8),
    ("Deduce(1 (x == x) by Auto)", 0, 0, 0),
    ("Deduce(1 (T) by Auto, 1 (T) by Auto)", 7, 1, 23),
    ("Deduce(1 (T) by Nothing)", 6, 1, 17),
    ("Deduce(1 (x) by Auto)", 8, 1, 11),
    (
        "Deduce(1 Let((i: Z) => SubProof(2 Assume(i == 0), 3 (i == 0) by Auto)))",
        0,
        0,
        0,
    ),
    (
        "Deduce(1 Let((x: Z) => SubProof(2 Assume(T), 3 (T) by Auto)))",
        7,
        1,
        15,
    ),
    ("Deduce(1 SubProof(1 Assume(T), 2 (T) by Auto))", 7, 1, 19),
    ("Deduce(1 (Old(v) == 1) by Auto)", 0, 0, 0),
];

const CONSTANTS: [Row; 6] = [
    ("-1", 0, 0, 0),
    ("P(1)", 0, 0, 0),
    ("P(T)", 8, 1, 3),
    ("q(1)", 6, 1, 1),
    ("x(1)", 12, 1, 1),
    ("ISZ(1, T)", 8, 1, 8),
];

fn row(told: FirstFault) -> (u8, u32, u32) {
    match told.found {
        None => (0, 0, 0),
        Some(Fault { code, place }) => (code, place.line, place.col),
    }
}

/// The statements of a text, up to the first that does not stand in the grammar.
fn statements(alloc: Global, tokens: &mut Cursor<'_, '_>) -> Result<Items<Stmt>, Fail> {
    let mut stmts = Items::new(alloc);
    for _ in 0..tokens.rest().len() {
        if tokens.first().is_none() {
            break;
        }
        match stmt(alloc, tokens) {
            Ok(read) => stmts.push(read)?,
            Err(_) => break,
        }
        tokens.take(TokenKind::Newline);
    }
    Ok(stmts)
}

/// The first fault of these statements.
fn judged(alloc: Global, stmts: &[Stmt]) -> Result<(u8, u32, u32), Fail> {
    let mut scope = scope(alloc)?;
    let mut told = FirstFault::none();
    judged_stmts(stmts, alloc, &mut scope, &mut told)?;
    Ok(row(told))
}

#[test]
fn statements_have_first_faults(rt: HostRuntime) -> Result<(), Fail> {
    for &(text, code, line, col) in &STATEMENTS {
        let tokens = read_tokens(rt.alloc(), text)?;
        let mut cursor = Cursor::new(&tokens.list);
        let stmts = statements(rt.alloc(), &mut cursor)?;
        assert!(rt; cursor.rest().is_empty(), "{text}");
        let found = judged(rt.alloc(), stmts.as_slice())?;
        assert!(rt; found == (code, line, col), "{text}");
    }
    Ok(())
}

#[test]
fn constants_have_first_faults(rt: HostRuntime) -> Result<(), Fail> {
    let scope = scope(rt.alloc())?;
    for &(text, code, line, col) in &CONSTANTS {
        let tokens = read_tokens(rt.alloc(), text)?;
        let mut cursor = Cursor::new(&tokens.list);
        let mut told = FirstFault::none();
        match constant(rt.alloc(), &mut cursor) {
            Ok(read) => {
                declared_constant(&read, rt.alloc(), &scope, &mut told, &None)?;
            }
            Err(_) => assert!(rt; false, "{text}"),
        }
        assert!(rt; row(told) == (code, line, col), "{text}");
    }
    Ok(())
}

/// Whether a method may name this in its Modifies.
fn may_modify(alloc: Global, text: &str) -> Result<(u8, u32, u32), Fail> {
    let scope = scope(alloc)?;
    let mut told = FirstFault::none();
    let name = Name {
        text: Text::from_str(alloc, text)?,
        place: Place { line: 3, col: 4 },
    };
    modifies(&[name], alloc, &scope, &mut told, MayBeNamed::GlobalVars)?;
    Ok(row(told))
}

#[test]
fn methods_modify_globals(rt: HostRuntime) -> Result<(), Fail> {
    let global = may_modify(rt.alloc(), "h")?;
    assert!(rt; global == (0, 0, 0));
    let local = may_modify(rt.alloc(), "v")?;
    assert!(rt; local == (10, 3, 4));
    Ok(())
}
