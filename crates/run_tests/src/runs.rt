//! Runs, each with its method, its turns, its arguments with `;` between them, what is written and the code. What is due of them follows
//! from the rules of runs in `docs/LANGUAGE.md`.

use project_reading::NamedText;
use run_command::run_texts;
use std::alloc::{AllocError, Global};
use std::process::Abort;
use std::test::Fail;

/// The method, the turns, the arguments, and what is due.
type Row = (&'static str, u64, &'static str, &'static str, u8);

const INC: &str = "def inc(x: Z): Z = {
  Contract(
    Requires(x >= 0),
    Ensures(Res == x + 1)
  )
  return x + 1
}
";

const INCS: [Row; 16] = [
    ("inc", 1, "1", "ended 2\n", 0),
    ("inc", 0, "1", "going\n", 9),
    ("inc", 10, "-1", "fails requires -:1:5\n", 1),
    ("inc", 10, "- 1", "fails requires -:1:5\n", 1),
    ("inc", 10, " 41\t", "ended 42\n", 0),
    ("inc", 10, "007", "ended 8\n", 0),
    (
        "inc",
        10,
        "170141183460469231731687303715884105727",
        "wide -:6:10\n",
        9,
    ),
    ("inc", 10, "170141183460469231731687303715884105728", "", 11),
    (
        "inc",
        10,
        "-170141183460469231731687303715884105728",
        "fails requires -:1:5\n",
        1,
    ),
    (
        "inc",
        10,
        "-170141183460469231731687303715884105729",
        "",
        11,
    ),
    ("inc", 10, "T", "", 11),
    ("inc", 10, "1 2", "", 11),
    ("inc", 10, "1 // one", "", 11),
    ("inc", 10, "", "", 11),
    ("inc", 10, "1;2", "", 11),
    ("dec", 10, "1", "", 11),
];

const VALVES: &str = "@datatype class Valve(isOpen: B, flow: Z)
var all: Z = 2
def m(a: Z, b: Z): Z = {
  return a % b
}
def d(a: Z, b: Z): Z = {
  return a / b
}
def flow(vs: ISZ[Valve], k: Z): Z = {
  return vs(k).flow + all
}
def same(vs: ISZ[Valve]): ISZ[Valve] = {
  return vs
}
def spin(x: Z): Z = {
  val y: Z = spin(x)
  return y
}
";

const VALVE_RUNS: [Row; 17] = [
    ("m", 10, "-7;2", "ended -1\n", 0),
    ("d", 10, "-7;2", "ended -3\n", 0),
    ("d", 10, "1;0", "fails division -:7:10\n", 1),
    (
        "m",
        10,
        "-170141183460469231731687303715884105728;-1",
        "ended 0\n",
        0,
    ),
    (
        "d",
        10,
        "-170141183460469231731687303715884105728;-1",
        "wide -:7:10\n",
        9,
    ),
    ("m", 10, "1", "", 11),
    ("n", 10, "1", "", 11),
    (
        "flow",
        10,
        "ISZ(Valve(T, 3), Valve(F, 4));1",
        "ended 6\n",
        0,
    ),
    (
        "flow",
        10,
        "ISZ(Valve(T, 3),Valve(F, 4),);0",
        "ended 5\n",
        0,
    ),
    ("flow", 10, "ISZ[Valve]();0", "fails index -:10:10\n", 1),
    ("flow", 10, "ISZ();0", "", 11),
    ("flow", 10, "ISZ[Z]();0", "", 11),
    ("flow", 10, "ISZ(Valve(3, T));0", "", 11),
    (
        "same",
        10,
        "ISZ [ Valve ] ( Valve ( F , -2 ) )",
        "ended ISZ(Valve(F, -2))\n",
        0,
    ),
    ("same", 10, "ISZ[Valve]()", "ended ISZ()\n", 0),
    ("same", 10, "ISZ(Valve(F, -2))\n", "", 11),
    ("spin", 100, "0", "going\n", 9),
];

const COUNTS: &str = "def w(n: Z): Unit = {
  assert(All(0 until n)(i => i >= 0))
}
def b(x: B): B = {
  return !x
}
";

const COUNT_RUNS: [Row; 4] = [
    ("w", 10, "1000", "ended ()\n", 0),
    ("w", 10, "1000001", "visits -:2:10\n", 9),
    ("b", 10, "T", "ended F\n", 0),
    ("b", 10, "1", "", 11),
];

const FAULTY: [Row; 2] = [
    ("f", 10, "", "-:2:10 E6 unknown name\n", 2),
    ("g", 10, "1", "-:2:10 E6 unknown name\n", 2),
];

fn copied(alloc: Global, text: &str) -> Result<Vec<u8>, AllocError> {
    let mut bytes = Vec::new(alloc);
    bytes.extend_from_slice(text.as_bytes())?;
    Ok(bytes)
}

fn words_of(alloc: Global, words: &str) -> Result<Vec<String>, AllocError> {
    let mut all = Vec::new(alloc);
    if !words.is_empty() {
        for word in words.split(';') {
            all.push(String::from_str(alloc, word)?)?;
        }
    }
    Ok(all)
}

/// Whether that is written of the run on the text from standard input, with that code.
fn is_due(alloc: Global, text: &str, row: &Row) -> Result<bool, AllocError> {
    let (method, turns, words, due, code) = *row;
    let texts = [NamedText {
        name: String::from_str(alloc, "-")?,
        bytes: copied(alloc, text)?,
    }];
    let words = words_of(alloc, words)?;
    let ran = run_texts(alloc, &texts, method, turns, words.as_slice())?;
    Ok(ran.text.as_slice() == due.as_bytes() && ran.code == code)
}

fn are_due(rt: &impl Abort, alloc: Global, text: &str, rows: &[Row]) -> Result<(), Fail> {
    for row in rows {
        let due = is_due(alloc, text, row)?;
        assert!(rt; due, "{} {} {}", row.0, row.1, row.2);
    }
    Ok(())
}

#[test]
fn numbers(rt: HostRuntime) -> Result<(), Fail> {
    are_due(&rt, rt.alloc(), INC, &INCS)
}

#[test]
fn records_and_sequences(rt: HostRuntime) -> Result<(), Fail> {
    are_due(&rt, rt.alloc(), VALVES, &VALVE_RUNS)
}

#[test]
fn truth_values_and_visits(rt: HostRuntime) -> Result<(), Fail> {
    are_due(&rt, rt.alloc(), COUNTS, &COUNT_RUNS)
}

#[test]
fn texts_with_faults(rt: HostRuntime) -> Result<(), Fail> {
    are_due(&rt, rt.alloc(), "def f(): Z = {\n  return y\n}\n", &FAULTY)
}
