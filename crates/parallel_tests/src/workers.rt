//! Projects of one text, each checked by no worker, by one, by eight and by 64. What is due follows from the rules in `docs/LANGUAGE.md`.

use parallel_check::check_fresh;
use project_check::printed;
use project_reading::NamedText;
use std::alloc::{AllocError, Global};
use std::process::Abort;
use std::str;
use std::test::Fail;
use std::thread::Threads;

const WORKERS: [u32; 4] = [0, 1, 8, 64];

/// The text, what is printed of it, and the code.
type Row = (&'static str, &'static str, u8);

const ROWS: [Row; 6] = [
    ("", "revision 1\nmethods 0 verified 0\n", 0),
    (
        "def inc(x: Z): Z = {
  Contract(
    Requires(x >= 0),
    Ensures(Res == x + 1)
  )
  return x + 1
}
",
        "revision 1\ninc verified\nmethods 1 verified 1\n",
        0,
    ),
    (
        "def b(x: Z): Z = {
  Contract(Ensures(Res == x))
  return x
}
def a(x: Z): Z = {
  Contract(Ensures(Res == x))
  return x + 1
}
def c(x: Z): Z = {
  if (x > 0) {
    assert(x >= 1)
  } else {
    assert(x < 0)
  }
  val y: Z = b(x)
  return y
}
",
        "revision 1\na unproved -:6:20 ensures open\nb verified\nc unproved -:13:12 assert open\nmethods 3 verified 1\n",
        1,
    ),
    (
        "def f(): Z = {\n  return y\n}",
        "revision 1\n-:2:10 E6 unknown name\n",
        2,
    ),
    (
        "def f(): Unit = {\n  return 1\n}",
        "revision 1\n-:2:10 E8 type differs\n",
        2,
    ),
    ("def f(", "revision 1\n-:1:7 E4 unexpected token\n", 2),
];

fn text_of(alloc: Global, text: &str) -> Result<[NamedText; 1], AllocError> {
    let name = String::from_str(alloc, "-")?;
    let bytes = Vec::from_slice(alloc, text.as_bytes())?;
    Ok([NamedText { name, bytes }])
}

// What is printed of the text, with the code.
fn told<R: Threads + Sync>(
    rt: &R,
    alloc: Global,
    text: &str,
    workers: u32,
) -> Result<String, Fail> {
    let texts = text_of(alloc, text)?;
    let report = check_fresh(rt, alloc, &texts, workers.min(64))?;
    let told = printed(alloc, &report)?;
    let text = str::from_utf8(&told.text)?;
    Ok(format!(in alloc; "{}|{text}", told.code)?)
}

#[test]
fn rows(rt: HostRuntime) -> Result<(), Fail> {
    let alloc = rt.alloc();
    for (text, due, code) in ROWS {
        for workers in WORKERS {
            let due = format!(in alloc; "{code}|{due}")?;
            assert_eq!(rt;
                told(&rt, alloc, text, workers)?,
                due,
                "{workers} workers over {text}"
            );
        }
    }
    Ok(())
}

// A method of so many turns of one variable, so that its last claim is as high a term as there are statements.
fn high(alloc: Global, steps: u32) -> Result<String, AllocError> {
    let mut text = String::new(alloc);
    text.push_str("def f(): Z = {\n  Contract(Ensures(Res == 300))\n  var x: Z = 0\n")?;
    for _ in 0..steps {
        text.push_str("  x = x + 1\n")?;
    }
    text.push_str("  return x\n}\n")?;
    Ok(text)
}

#[test]
fn high_terms_on_the_stacks_of_threads(rt: HostRuntime) -> Result<(), Fail> {
    let alloc = rt.alloc();
    let text = high(alloc, 300)?;
    for workers in WORKERS {
        assert_eq!(rt;
            told(&rt, alloc, text.as_str(), workers)?.as_str(),
            "0|revision 1\nf verified\nmethods 1 verified 1\n",
            "{workers} workers"
        );
    }
    Ok(())
}
