// The command `run` over objects in memory.
use crate::statuses::run;
use std::test::Fail;

// No call fails: calls are counted from 1.
const NEVER: u64 = 0;

const INC: &[u8] = b"def inc(x: Z): Z = {
  Contract(
    Requires(x >= 0),
    Ensures(Res == x + 1)
  )
  return x + 1
}
def m(a: Z, b: Z): Z = {
  return a % b
}
def d(a: Z, b: Z): Z = {
  return a / b
}
def spin(x: Z): Z = {
  Contract(
    Ensures(F)
  )
  val y: Z = spin(x)
  return y
}
def put(a: ISZ[Z], i: Z, v: Z): ISZ[Z] = {
  return a(i ~> v)
}
";

// The words, and what comes of them.
static RUNS: [(&str, &str); 21] = [
    (
        "run inc 10 170141183460469231731687303715884105727",
        "9|wide -:6:10\n|",
    ),
    ("run inc 10 -1", "1|fails requires -:1:5\n|"),
    ("run inc 0 1", "9|going\n|"),
    ("run inc 1 1", "0|ended 2\n|"),
    ("run inc 00000000000000000001 1", "0|ended 2\n|"),
    ("run inc 18446744073709551615 007", "0|ended 8\n|"),
    ("run m 10 -7 2", "0|ended -1\n|"),
    ("run d 10 -7 2", "0|ended -3\n|"),
    ("run d 10 1 0", "1|fails division -:12:10\n|"),
    (
        "run m 10 -170141183460469231731687303715884105728 -1",
        "0|ended 0\n|",
    ),
    (
        "run d 10 -170141183460469231731687303715884105728 -1",
        "9|wide -:12:10\n|",
    ),
    ("run spin 1000 0", "9|going\n|"),
    ("run put 10 ISZ(1,2) 1 -3", "0|ended ISZ(1, -3)\n|"),
    ("run put 10 ISZ(1,2,) 2 3", "1|fails index -:22:10\n|"),
    ("run m 10 1", "11||logika: arguments do not fit\n"),
    ("run m 10 1 2 3", "11||logika: arguments do not fit\n"),
    ("run n 10", "11||logika: arguments do not fit\n"),
    ("run inc 10 T", "11||logika: arguments do not fit\n"),
    ("run inc 10 ISZ[Z]()", "11||logika: arguments do not fit\n"),
    (
        "run inc 10 Valve(T,ISZ[ISZ[Unit]](F))",
        "11||logika: arguments do not fit\n",
    ),
    ("run check 10", "11||logika: arguments do not fit\n"),
];

#[test]
fn each_run_has_its_status(rt: HostRuntime) -> Result<(), Fail> {
    for (line, left) in RUNS.iter() {
        let run = run(&rt, rt.alloc(), line, INC, (NEVER, NEVER, NEVER), &[], 1)?;
        assert_eq!(rt; run.as_str(), *left, "{line}");
    }
    Ok(())
}

// The calls that fail of the source, the output and the journal, a text, and what comes of them.
static OTHERS: [((u64, u64, u64), &[u8], &str); 5] = [
    (
        (1, NEVER, NEVER),
        b"val t: Z = T",
        "5||logika: read fault\n",
    ),
    (
        (NEVER, NEVER, NEVER),
        b"val t: Z = T",
        "2|-:1:12 E8 type differs\n|",
    ),
    (
        (NEVER, 2, NEVER),
        b"val t: Z = T",
        "6|-:1|logika: write fault\n",
    ),
    ((NEVER, 1, 3), b"", "11||logika: arguments do"),
    ((NEVER, 1, NEVER), b"", "11||logika: arguments do not fit\n"),
];

#[test]
fn a_run_ends_early_by_failing_calls(rt: HostRuntime) -> Result<(), Fail> {
    for (fails, text, left) in OTHERS.iter() {
        let run = run(&rt, rt.alloc(), "run f 10", text, *fails, &[], 1)?;
        assert_eq!(rt; run.as_str(), *left);
    }
    Ok(())
}
