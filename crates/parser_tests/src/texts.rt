//! Whole texts. What is due of them follows from the rules of grammar and faults in `docs/LANGUAGE.md`.

use std::alloc::{AllocError, Global};
use std::process::Abort;
use std::test::Fail;
use text_parser::{ParseEnd, parse};

/// A text, and what comes of it: the code of its fault with line and column, or 0 with the number of its declarations.
type Row = (&'static [u8], u8, u32, u32);

/// Texts that are read.
const READ: [Row; 14] = [
    (b"", 0, 0, 0),
    (b"import a.b._", 0, 1, 0),
    (
        b"val x: Z = -1\nvar y = T\n@datatype\nclass P(val a: Z, b: ISZ[Z],)\ndef f(): Unit = {\n}\n",
        0,
        4,
        0,
    ),
    (b"val p = P(1, ISZ(T, F), ISZ[B]())", 0, 1, 0),
    (
        b"def f(x: Z): Z = { Contract(Requires(x > 0,), Modifies(a, b), Ensures(Res == x)); return x }",
        0,
        1,
        0,
    ),
    (b"def f(): Unit = { Contract(); }", 0, 1, 0),
    (
        b"def f(): Unit = { val x = g(1)\n var y: Z = 2\n x = 3\n g()\n assert(T) }",
        0,
        1,
        0,
    ),
    (
        b"def f(): Unit = { if (a) { } else if (b) { x = 1 } else { g(2,) }; }",
        0,
        1,
        0,
    ),
    (
        b"def f(): Unit = { while (T)\n { Invariant(Modifies(x), T, F); x = 1 } }",
        0,
        1,
        0,
    ),
    (
        b"def f(): Unit = { while (T) { Invariant(Modifies(x,)) } }",
        0,
        1,
        0,
    ),
    (
        b"def f(): Unit = { Deduce(1 (T) by Auto, 2 (F) by Subst_<(1, 1,), 3 SubProof(4 Assume(T)),) }",
        0,
        1,
        0,
    ),
    (
        b"def f(): Unit = { Deduce(1 Let((x: Z) => SubProof(2 Assume(T), 3 (T) by Auto))) }",
        0,
        1,
        0,
    ),
    (
        b"def f(): Unit = { x = All(a.indices)(i => Old(b)(i) == In(c)(i)) }",
        0,
        1,
        0,
    ),
    (
        b"def f(): B = { /* a */ return Exists(0 until n)(i => a(i ~> 1).size > Res[ISZ[Z]](i)) // b\n}",
        0,
        1,
        0,
    ),
];

/// Texts that are not.
const REFUSED: [Row; 34] = [
    (b"val x \xff", 1, 1, 7),
    (b"$\n\xc3\xa9\xe2\x82", 1, 2, 2),
    (b"def f(): Unit = { x = 1 $ }", 2, 1, 25),
    (b"val x = /* 1", 2, 1, 9),
    (b"val x = 170141183460469231731687303715884105728", 3, 1, 9),
    (
        b"def f(): Unit = { Deduce(4294967296 (T) by Auto) }",
        3,
        1,
        26,
    ),
    (
        b"def f(): Unit = { Deduce(1 (T) by Auto(4294967296)) }",
        3,
        1,
        40,
    ),
    (
        b"def f(): Unit = { Deduce(1 SubProof(4294967296 Assume(T))) }",
        3,
        1,
        37,
    ),
    (b"def f(): Z\nreturn 1", 4, 1, 11),
    (b"def f(): Unit = { return 1; x = 1 }", 4, 1, 29),
    (b"@ 1", 4, 1, 1),
    (b"@", 4, 1, 1),
    (b"@ $", 4, 1, 1),
    (b"@datatype def", 4, 1, 11),
    (b"val x = if", 4, 1, 9),
    (b"val x = ISZ()", 4, 1, 13),
    (b"val x = 1 -> 2", 4, 1, 11),
    (b"def f(): Unit = { Deduce(x (T) by Auto) }", 4, 1, 26),
    (
        b"def f(): Unit = { Contract(Ensures(T), Requires(T)) }",
        4,
        1,
        40,
    ),
    (b"def f(): Unit = { x = 1; Contract() }", 4, 1, 26),
    (b"def f(x): Unit = { }", 4, 1, 8),
    (b"def f(_: Z): Unit = { }", 4, 1, 7),
    (
        b"def f(p: B, x: Z): Unit = {\n  assert(p ->: x + 1 == 2)\n}",
        4,
        2,
        18,
    ),
    (b"def f(): Unit = { g(,) }", 4, 1, 21),
    (b"def f(): Unit = {", 4, 1, 18),
    (b"def f(): Unit = { while (T) { x = 1 } }", 13, 1, 31),
    (b"def f(): Unit = { while (T) {", 13, 1, 30),
    (b"match", 14, 1, 1),
    (b"class P", 14, 1, 1),
    (b"@ x", 14, 1, 3),
    (b"@ def", 14, 1, 3),
    (b"def f(): Unit = { x = if }", 14, 1, 23),
    (b"def f(): Unit = { x = 1 + new }", 14, 1, 27),
    (b"def f(): Unit = { if (x) { return 1 } }", 14, 1, 28),
];

/// What comes of a text, as in the rows.
fn outcome(alloc: Global, text: &[u8]) -> (u8, u32, u32) {
    match parse(alloc, text) {
        Ok(file) => (0, u32::try_from(file.items.len()).unwrap_or(u32::MAX), 0),
        Err(ParseEnd::Fault(fault)) => (fault.code, fault.place.line, fault.place.col),
        Err(ParseEnd::NoMemory) => (u8::MAX, 0, 0),
    }
}

/// The first row of which something else comes.
fn first_wrong(alloc: Global, rows: &[Row]) -> Option<usize> {
    rows.iter().position(|&(text, code, line, col)| outcome(alloc, text) != (code, line, col))
}

/// A text with so many round brackets in one another.
fn nested(alloc: Global, depth: usize) -> Result<Vec<u8>, AllocError> {
    let mut text = Vec::new(alloc);
    text.extend_from_slice(b"def f(): Unit = { x = ")?;
    for _ in 0..depth {
        text.push(b'(')?;
    }
    text.push(b'1')?;
    for _ in 0..depth {
        text.push(b')')?;
    }
    text.extend_from_slice(b" }")?;
    Ok(text)
}

#[test]
fn texts_are_read(rt: HostRuntime) -> Result<(), Fail> {
    assert_eq!(rt; first_wrong(rt.alloc(), &READ), None);
    Ok(())
}

#[test]
fn faults_are_told(rt: HostRuntime) -> Result<(), Fail> {
    assert_eq!(rt; first_wrong(rt.alloc(), &REFUSED), None);
    Ok(())
}

/// Two brackets stand around, so 198 more nest as deep as a text may.
#[test]
fn texts_nest_up_to_the_limit(rt: HostRuntime) -> Result<(), Fail> {
    let deep = nested(rt.alloc(), 198)?;
    let deeper = nested(rt.alloc(), 199)?;
    assert_eq!(rt; outcome(rt.alloc(), &deep), (0, 1, 0));
    assert_eq!(rt; outcome(rt.alloc(), &deeper), (5, 1, 221));
    Ok(())
}
