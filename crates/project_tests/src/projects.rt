//! Projects of up to three files, each file with the code, the line and the column of its first fault, or with zeros where it
//! has none. What is due of them follows from the rules of typing in `docs/LANGUAGE.md`.

use project_judging::first_faults;
use slang_tree::{FileFault, NamedFile, Text};
use sqlite_items::Items;
use std::alloc::{AllocError, Global};
use std::process::Abort;
use std::test::Fail;
use text_parser::parse;

/// The text of a file, with its first fault.
type Row = (&'static str, u8, u32, u32);

/// Projects of one file.
const ALONE: [Row; 45] = [
    ("", 0, 0, 0),
    ("import a.b", 0, 0, 0),
    ("val t: Z = T", 8, 1, 12),
    ("val t: Q = 1", 6, 1, 8),
    ("val x = 1\nvar x = 2", 7, 2, 5),
    ("def f(): Unit = { }\nval f = 1", 7, 2, 5),
    ("@datatype class P(x: Z)\nval P = 1", 7, 2, 5),
    ("@datatype class P(x: Z, x: B)", 7, 1, 25),
    ("@datatype class P(x: P)", 8, 1, 22),
    (
        "@datatype class P(x: ISZ[Q])\n@datatype class Q(x: P)",
        8,
        1,
        22,
    ),
    ("@datatype class P(x: Unit)", 8, 1, 22),
    (
        "@datatype class P(x: Z)\nval p = P(1)\nval q = P(T)",
        8,
        3,
        11,
    ),
    ("@datatype class P(x: Z)\nval p = P(1, 2)", 9, 2, 9),
    ("def f(): Unit = { }\nval p = f(1)", 12, 2, 9),
    ("def f(): Z = {\n  return y\n}", 6, 2, 10),
    ("def f(): Z = {\n}", 8, 1, 5),
    ("def f(): Unit = {\n  return 1\n}", 8, 2, 10),
    ("def f(): Z = {\n  return T\n}", 8, 2, 10),
    ("def f(x: Z, x: B): Unit = { }", 7, 1, 13),
    ("val x = 1\ndef f(x: Z): Unit = { }", 7, 2, 7),
    ("def f(x: Q): Unit = { }", 6, 1, 10),
    ("def f(): Q = { return 1 }", 6, 1, 10),
    ("def f(): Unit = { val x = 1\n  val x = 2 }", 7, 2, 7),
    ("def f(): Unit = { val x = 1\n  x = 2 }", 10, 2, 3),
    ("def f(x: Z): Unit = { x = 2 }", 10, 1, 23),
    ("var x = 1\ndef f(): Unit = { x = 2 }", 11, 2, 19),
    (
        "var x = 1\ndef f(): Unit = { Contract(Modifies(x)); x = 2 }",
        0,
        0,
        0,
    ),
    (
        "var x = 1\ndef f(): Unit = { Contract(Modifies(x, x)); x = 2 }",
        7,
        2,
        40,
    ),
    (
        "val x = 1\ndef f(): Unit = { Contract(Modifies(x)); }",
        10,
        2,
        37,
    ),
    ("def f(): Unit = { Contract(Modifies(x)); }", 6, 1, 37),
    (
        "var x = 1\ndef f(): Unit = { Contract(Modifies(x)); x = 2 }\ndef g(): Unit = { f() }",
        11,
        3,
        19,
    ),
    (
        "def f(): Z = { return 1 }\ndef g(): Z = { return f() }",
        12,
        2,
        23,
    ),
    (
        "def f(): Z = { return 1 }\ndef g(): Unit = { f(2) }",
        9,
        2,
        19,
    ),
    ("def f(): Unit = {\n  assert(f())\n}", 12, 2, 10),
    ("def f(): Unit = {\n  assert(f(1))\n}", 9, 2, 10),
    ("def f(): Unit = { Contract(Requires(1)); }", 8, 1, 37),
    (
        "def f(): Unit = { Contract(Ensures(Res == 1)); }",
        15,
        1,
        36,
    ),
    (
        "def f(): Z = { Contract(Requires(Res == 1)); return 1 }",
        15,
        1,
        34,
    ),
    (
        "def f(): Z = { Contract(Ensures(Res == 1)); return 1 }",
        0,
        0,
        0,
    ),
    (
        "var x = 1\ndef f(): Unit = { Contract(Ensures(In(x) == x)); }",
        0,
        0,
        0,
    ),
    (
        "var x = 1\ndef f(): Unit = {\n  assert(In(x) == x)\n}",
        15,
        3,
        10,
    ),
    (
        "def f(): Unit = {\n  val y = All(0 until 1)(i => T)\n}",
        15,
        2,
        11,
    ),
    (
        "def f(x: Z): Unit = { val y = x }\ndef g(): Unit = { val y = x }",
        6,
        2,
        27,
    ),
    (
        "def f(): Unit = { if (T) { val x = 1 } else { val x = T } }",
        0,
        0,
        0,
    ),
    (
        "var v = 1\ndef f(): Unit = { Contract(Modifies(v)); while (T) { Invariant(Modifies(v), T); v = y } }",
        6,
        2,
        85,
    ),
];

/// Projects of three files, in the order of the files' names.
const TOGETHER: [[Row; 3]; 6] = [
    [
        ("def f(): Z = {\n  return y\n}", 6, 2, 10),
        ("val t: Z = T", 8, 1, 12),
        ("", 0, 0, 0),
    ],
    [
        ("val x = 1", 0, 0, 0),
        ("var x = 2", 7, 1, 5),
        ("def x(): Unit = { }", 7, 1, 5),
    ],
    [
        ("def f(): Z = { val y = g()\n  return y }", 0, 0, 0),
        ("def g(): Z = { return z }", 0, 0, 0),
        ("val z = 1", 0, 0, 0),
    ],
    [
        ("val p = P(1)", 8, 1, 11),
        ("@datatype class P(x: Q)", 0, 0, 0),
        ("@datatype class Q(x: Z)", 0, 0, 0),
    ],
    [
        ("@datatype class P(x: Q)", 8, 1, 22),
        ("@datatype class R(x: Z)", 0, 0, 0),
        ("@datatype class Q(x: P)", 8, 1, 22),
    ],
    [
        ("def f(): Unit = { g() }", 11, 1, 19),
        ("var x = 1", 0, 0, 0),
        ("def g(): Unit = { Contract(Modifies(x)); x = 2 }", 0, 0, 0),
    ],
];

/// A file of this name and text.
fn file(alloc: Global, name: &str, text: &str) -> Result<NamedFile, Fail> {
    let tree = parse(alloc, text.as_bytes())?;
    Ok(NamedFile {
        name: Text::from_str(alloc, name)?,
        tree,
    })
}

/// What is found in the file of this name.
fn found_in(faults: &[FileFault], name: &str) -> (u8, u32, u32) {
    for told in faults {
        if told.file.as_str() == name {
            return (told.fault.code, told.fault.place.line, told.fault.place.col);
        }
    }
    (0, 0, 0)
}

/// What is found in a project of one file.
fn alone(alloc: Global, text: &str) -> Result<(u8, u32, u32), Fail> {
    let files = [file(alloc, "a.sc", text)?];
    let faults = first_faults(alloc, &files)?;
    Ok(found_in(faults.as_slice(), "a.sc"))
}

#[test]
fn files_have_first_faults(rt: HostRuntime) -> Result<(), Fail> {
    for &(text, code, line, col) in &ALONE {
        let found = alone(rt.alloc(), text)?;
        assert!(rt; found == (code, line, col), "{text}");
    }
    Ok(())
}

/// The faults of three files, which are given in another order than that of their names.
fn together(alloc: Global, a: &str, b: &str, c: &str) -> Result<Items<FileFault>, Fail> {
    let files = [
        file(alloc, "c.sc", c)?,
        file(alloc, "a.sc", a)?,
        file(alloc, "b.sc", b)?,
    ];
    let faults = first_faults(alloc, &files)?;
    Ok(faults)
}

#[test]
fn projects_have_first_faults(rt: HostRuntime) -> Result<(), Fail> {
    for &[
        (a, a_code, a_line, a_col),
        (b, b_code, b_line, b_col),
        (c, c_code, c_line, c_col),
    ] in &TOGETHER {
        let faults = together(rt.alloc(), a, b, c)?;
        let told = faults.as_slice();
        assert!(rt; found_in(told, "a.sc") == (a_code, a_line, a_col), "{a}");
        assert!(rt; found_in(told, "b.sc") == (b_code, b_line, b_col), "{b}");
        assert!(rt; found_in(told, "c.sc") == (c_code, c_line, c_col), "{c}");
    }
    Ok(())
}

/// A sum of 951 ones in five brackets, and so many ones behind it, as the value of a local.
fn high_sum(alloc: Global, behind: usize) -> Result<String, AllocError> {
    let mut text = String::from_str(alloc, "def f(): Unit = { val x = (((((1")?;
    for _ in 0..5 {
        for _ in 0..190 {
            text.push_str(" + 1")?;
        }
        text.push_str(")")?;
    }
    for _ in 0..behind {
        text.push_str(" + 1")?;
    }
    text.push_str(" }")?;
    Ok(text)
}

/// An expression may be as high as 1000.
#[test]
fn expressions_are_low(rt: HostRuntime) -> Result<(), Fail> {
    let low = high_sum(rt.alloc(), 49)?;
    let high = high_sum(rt.alloc(), 50)?;
    let found_low = alone(rt.alloc(), &low)?;
    let found_high = alone(rt.alloc(), &high)?;
    assert_eq!(rt; found_low, (0, 0, 0));
    assert_eq!(rt; found_high, (5, 1, 32));
    Ok(())
}
