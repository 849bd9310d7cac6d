//! Whole texts as they might be typed, and as they are printed: two blanks a level, brackets only where they are needed, one clause,
//! invariant and step a line. Where a text would nest too deep so, it has more brackets.

use lk_io::{MemSink, SureSink};
use slang_print::{PrintEnd, print_file};
use std::alloc::{AllocError, Global};
use std::process::Abort;
use std::test::Fail;
use text_parser::parse;

/// A text, and what is printed of it.
type Row = (&'static str, &'static str);

/// Declarations.
const DECLARATIONS: [Row; 7] = [
    ("", ""),
    ("import a . b._;", "import a.b._\n"),
    ("val x:Z=-1;var y=T", "val x: Z = -1\nvar y = T\n"),
    (
        "val p = P(1,ISZ(T,F,),ISZ[B]())",
        "val p = P(1, ISZ(T, F), ISZ[B]())\n",
    ),
    (
        "@datatype\nclass P(val a:Z,b:ISZ[ISZ[Z]],)\n@datatype class Q(p:P)\nval one=1",
        "@datatype class P(a: Z, b: ISZ[ISZ[Z]])\n\n@datatype class Q(p: P)\n\nval one = 1\n",
    ),
    (
        "def f(x:Z,):Unit={Contract(Ensures(T),)}",
        "def f(x: Z): Unit = {\n  Contract(\n    Ensures(T)\n  )\n}\n",
    ),
    (
        "// told\ndef f():Z={return 1};def g():B={/* none */return T}",
        "def f(): Z = {\n  return 1\n}\n\ndef g(): B = {\n  return T\n}\n",
    ),
];

/// Results of a method.
const RESULTS: [Row; 20] = [
    ("((a))", "a"),
    ("(a-b)-c", "a - b - c"),
    ("a-(b-c)", "a - (b - c)"),
    ("(a*b)+c%d", "a * b + c % d"),
    ("(a+b)*c", "(a + b) * c"),
    ("a->:(b->:c)", "a ->: b ->: c"),
    ("(a->:b)->:c", "(a ->: b) ->: c"),
    ("(a+b)->:c", "(a + b) ->: c"),
    ("(a&b)|c", "a & b | c"),
    ("a&(b|c)", "a & (b | c)"),
    ("a&&b||!c", "a && b || !c"),
    ("!(a==b)", "!(a == b)"),
    ("- -a", "--a"),
    ("-(1)", "-1"),
    ("(s(i)).size", "s(i).size"),
    ("(s:+x)(0)", "(s :+ x)(0)"),
    ("s(i~>(x+1))", "s(i ~> x + 1)"),
    ("ISZ [Z] (1,2,)", "ISZ[Z](1, 2)"),
    ("∀ (s.indices)(k=>s(k)>0)", "All(s.indices)(k => s(k) > 0)"),
    (
        "Exists(0 until(n+1))(k=>(k)==n)",
        "Exists(0 until n + 1)(k => k == n)",
    ),
];

/// Statements of a method.
const STATEMENTS: [Row; 7] = [
    ("val x:Z=(1)", "  val x: Z = 1\n"),
    ("var x=f(1,)\nx=2;g()", "  var x = f(1)\n  x = 2\n  g()\n"),
    (
        "if(a){}else if(b){x=1}else{assert(T)}",
        "  if (a) {\n  } else if (b) {\n    x = 1\n  } else {\n    assert(T)\n  }\n",
    ),
    (
        "while(T)\n{Invariant(Modifies(x,y),T,In(x)<=x);x=1}",
        "  while (T) {\n    Invariant(\n      Modifies(x, y),\n      T,\n      In(x) <= x\n    )\n    x = 1\n  }\n",
    ),
    (
        "Deduce(1 (T) by Auto,2 (F) by Subst_<(1,1,))",
        "  Deduce(\n    1 (T) by Auto,\n    2 (F) by Subst_<(1, 1)\n  )\n",
    ),
    (
        "Deduce(3 SubProof(4 Assume(a),5 (a) by Premise(4)))",
        "  Deduce(\n    3 SubProof(\n      4 Assume(a),\n      5 (a) by Premise(4)\n    )\n  )\n",
    ),
    (
        "Deduce(1 Let((k:Z)=>SubProof(2 Assume(T))),)",
        "  Deduce(\n    1 Let((k: Z) => SubProof(\n      2 Assume(T)\n    ))\n  )\n",
    ),
];

/// What is printed of a text.
fn printed(alloc: Global, text: &str) -> Result<SureSink, Fail> {
    let file = parse(alloc, text.as_bytes())?;
    let mut sink = SureSink::new(alloc);
    print_file(alloc, &file, &mut sink)?;
    Ok(sink)
}

/// Whether this is printed of a text, and of itself.
fn is_printed(alloc: Global, text: &str, wanted: &str) -> Result<bool, Fail> {
    let first = printed(alloc, text)?;
    let again = printed(alloc, wanted)?;
    Ok(first.bytes() == wanted.as_bytes() && again.bytes() == wanted.as_bytes())
}

/// A text with another in its midst.
fn within(alloc: Global, before: &str, inside: &str, behind: &str) -> Result<String, AllocError> {
    let mut text = String::from_str(alloc, before)?;
    text.push_str(inside)?;
    text.push_str(behind)?;
    Ok(text)
}

#[test]
fn declarations_are_laid_out(rt: HostRuntime) -> Result<(), Fail> {
    for &(text, wanted) in &DECLARATIONS {
        assert!(rt; is_printed(rt.alloc(), text, wanted)?, "{text}");
    }
    Ok(())
}

#[test]
fn brackets_stand_where_they_are_needed(rt: HostRuntime) -> Result<(), Fail> {
    for &(inside, result) in &RESULTS {
        let text = within(rt.alloc(), "def f(): Z = { return ", inside, " }")?;
        let wanted = within(rt.alloc(), "def f(): Z = {\n  return ", result, "\n}\n")?;
        assert!(rt; is_printed(rt.alloc(), &text, &wanted)?, "{inside}");
    }
    Ok(())
}

#[test]
fn statements_are_laid_out(rt: HostRuntime) -> Result<(), Fail> {
    for &(inside, body) in &STATEMENTS {
        let text = within(rt.alloc(), "def f(): Unit = { ", inside, " }")?;
        let wanted = within(rt.alloc(), "def f(): Unit = {\n", body, "}\n")?;
        assert!(rt; is_printed(rt.alloc(), &text, &wanted)?, "{inside}");
    }
    Ok(())
}

/// A product of so many ones.
fn product(alloc: Global, factors: u32, times: &str) -> Result<String, AllocError> {
    let mut text = String::from_str(alloc, "1")?;
    for _ in 1..factors {
        text.push_str(times)?;
        text.push_str("1")?;
    }
    Ok(text)
}

/// Two of these between others.
fn both(alloc: Global, part: &str, around: [&str; 3]) -> Result<String, AllocError> {
    let [before, between, behind] = around;
    let mut text = within(alloc, before, part, between)?;
    text.push_str(part)?;
    text.push_str(behind)?;
    Ok(text)
}

/// A sum of two products in brackets, as it might be typed.
fn typed_sum(alloc: Global, factors: u32) -> Result<String, AllocError> {
    let part = product(alloc, factors, "*")?;
    both(alloc, &part, ["def f(): Z = { return (", ")+(", ") }"])
}

/// The same, printed plainly.
fn plain_sum(alloc: Global, factors: u32) -> Result<String, AllocError> {
    let part = product(alloc, factors, " * ")?;
    both(alloc, &part, ["def f(): Z = {\n  return ", " + ", "\n}\n"])
}

/// Whether something else is printed of a text, and that of itself.
fn is_printed_otherwise(alloc: Global, text: &str, plain: &str) -> Result<bool, Fail> {
    let first = printed(alloc, text)?;
    let again = printed(alloc, std::str::from_utf8(first.bytes())?)?;
    Ok(again.bytes() == first.bytes() && first.bytes() != plain.as_bytes())
}

/// Where a text would nest too deep with brackets only where they are needed, it has more.
#[test]
fn what_nests_too_deep_is_printed_lightly(rt: HostRuntime) -> Result<(), Fail> {
    let alloc = rt.alloc();
    let plain = is_printed(alloc, &typed_sum(alloc, 99)?, &plain_sum(alloc, 99)?)?;
    let light = is_printed_otherwise(alloc, &typed_sum(alloc, 100)?, &plain_sum(alloc, 100)?)?;
    assert!(rt; plain);
    assert!(rt; light);
    Ok(())
}

/// A sink that fails has a front of what is printed, and its length is told.
#[test]
fn a_failing_sink_has_a_front(rt: HostRuntime) -> Result<(), Fail> {
    let alloc = rt.alloc();
    let file = parse(alloc, b"val x = 1\nval y = 2")?;
    let mut sink = MemSink::new(alloc, 7, Vec::from_slice(alloc, &[2])?);
    let end = print_file(alloc, &file, &mut sink).err();
    assert!(rt; matches!(end, Some(PrintEnd::WriteFault { out: 7 })));
    assert!(rt; sink.bytes() == b"val x =".as_slice());
    Ok(())
}
