// The statuses of the program over objects in memory.
use lk_io::{MemFolder, MemSink, MemSource, NamedBytes};
use logika_cli::{LIMITS, check_once, end_without_memory, logika_main};
use std::alloc::Global;
use std::str;
use std::test::Fail;

// No call fails: calls are counted from 1.
const NEVER: u64 = 0;

// The calls that fail, of the source, the output and the journal.
type Fails = (u64, u64, u64);

fn source(alloc: Global, text: &[u8], most: usize, fail: u64) -> Result<MemSource, Fail> {
    let text = Vec::from_slice(alloc, text)?;
    Ok(MemSource::new(text, most.max(1), Vec::from_slice(alloc, &[fail])?))
}

fn sink(alloc: Global, most: usize, fail: u64) -> Result<MemSink, Fail> {
    Ok(MemSink::new(alloc, most.max(1), Vec::from_slice(alloc, &[fail])?))
}

// The status, what the output was given and what the journal was given.
fn left(alloc: Global, code: u8, out: &MemSink, journal: &MemSink) -> Result<String, Fail> {
    let out = str::from_utf8(out.bytes())?;
    let journal = str::from_utf8(journal.bytes())?;
    Ok(format!(in alloc; "{code}|{out}|{journal}")?)
}

fn named(alloc: Global, files: &[(&str, &[u8])]) -> Result<Vec<NamedBytes>, Fail> {
    let mut named = Vec::new(alloc);
    for (name, bytes) in files {
        named.push(NamedBytes {
            name: String::from_str(alloc, name)?,
            bytes: Vec::from_slice(alloc, bytes)?,
        })?;
    }
    Ok(named)
}

// The program over the words of a line, of which an empty one has none, and over these files, of which one read fails. The
// source gives one byte a call, the output takes three and the journal ten.
pub(crate) fn run<R>(
    rt: &R,
    alloc: Global,
    line: &str,
    text: &[u8],
    (take, give, tell): Fails,
    files: &[(&str, &[u8])],
    read: u64,
) -> Result<String, Fail> {
    let mut words = Vec::new(alloc);
    for word in line.split_whitespace() {
        words.push(String::from_str(alloc, word)?)?;
    }
    let mut source = source(alloc, text, 1, take)?;
    let mut out = sink(alloc, 3, give)?;
    let mut journal = sink(alloc, 10, tell)?;
    let mut folder = MemFolder::new(named(alloc, files)?, Vec::from_slice(alloc, &[read])?);
    let status = logika_main(
        rt,
        alloc,
        &words,
        &mut source,
        &mut out,
        &mut journal,
        &mut folder,
    );
    left(alloc, status.code, &out, &journal)
}

// The source has two newlines, so the third take is its end. The output has 32 bytes, so its twelfth call is its flush,
// and the journal's third.
static FAILING: [(Fails, &str); 15] = [
    (
        (NEVER, NEVER, NEVER),
        "0|revision 1\nmethods 0 verified 0\n|",
    ),
    ((NEVER, NEVER, 1), "0|revision 1\nmethods 0 verified 0\n|"),
    ((1, NEVER, NEVER), "5||logika: read fault\n"),
    ((2, NEVER, NEVER), "5||logika: read fault\n"),
    ((3, 1, NEVER), "5||logika: read fault\n"),
    ((4, NEVER, NEVER), "0|revision 1\nmethods 0 verified 0\n|"),
    ((NEVER, 1, NEVER), "6||logika: write fault\n"),
    ((NEVER, 2, NEVER), "6|rev|logika: write fault\n"),
    (
        (NEVER, 11, NEVER),
        "6|revision 1\nmethods 0 verified |logika: write fault\n",
    ),
    (
        (NEVER, 12, NEVER),
        "6|revision 1\nmethods 0 verified 0\n|logika: write fault\n",
    ),
    ((NEVER, 13, NEVER), "0|revision 1\nmethods 0 verified 0\n|"),
    ((1, NEVER, 1), "5||"),
    ((1, NEVER, 2), "5||logika: re"),
    ((1, NEVER, 3), "5||logika: read fault\n"),
    ((NEVER, 2, 2), "6|rev|logika: wr"),
];

#[test]
fn each_failing_call_has_its_status(rt: HostRuntime) -> Result<(), Fail> {
    for (fails, left) in FAILING.iter() {
        let run = run(&rt, rt.alloc(), "check", b"\n\n", *fails, &[], NEVER)?;
        assert_eq!(rt; run.as_str(), *left);
    }
    Ok(())
}

// Each call of the source, the output and the folder would fail.
#[test]
fn other_words_are_refused_and_nothing_is_read(rt: HostRuntime) -> Result<(), Fail> {
    for line in [
        "",
        "check a.sc a.sc",
        "check a.sc b.sc a.sc",
        "check -",
        "check a.sc -b",
        "check --",
        "Check",
        "--",
        "session --workers 65",
        "session --cache 0",
        "session --workers 1 --workers=1",
        "run",
        "run inc",
        "run inc ten 1",
        "run inc -1 1",
        "run inc +1 1",
        "run inc 000000000000000000001 1",
        "run inc 18446744073709551616 1",
        "run inc 10 one",
        "run inc 10 1+1",
        "run inc 10 1;",
        "run inc 10 170141183460469231731687303715884105728",
        "run inc 10 -170141183460469231731687303715884105729",
        "run inc 10 ISZ()",
        "run inc 10 Valve()",
        "run inc 10 Valve(1",
        "run inc 10 1//",
        "Run inc 10 1",
    ] {
        let run = run(&rt, rt.alloc(), line, b"\n", (1, 1, NEVER), &[], 1)?;
        assert_eq!(rt; run.as_str(), "3||logika: words refused\n", "{line}");
    }
    Ok(())
}

// The words behind `check`, the read of the folder that fails, and what comes of it. No take would succeed.
static FILES: [(&str, u64, &str); 13] = [
    (
        "check b.sc a.sc",
        NEVER,
        "2|revision 1\na.sc:2:10 E6 unknown name\nb.sc:1:12 E8 type differs\n|",
    ),
    (
        "check empty.sc",
        NEVER,
        "0|revision 1\nmethods 0 verified 0\n|",
    ),
    (
        "check empty.sc b.sc",
        NEVER,
        "2|revision 1\nb.sc:1:12 E8 type differs\n|",
    ),
    ("check none.sc", NEVER, "10||logika: no file none.sc\n"),
    (
        "check a.sc none.sc other.sc",
        NEVER,
        "10||logika: no file none.sc\n",
    ),
    ("check check", NEVER, "10||logika: no file check\n"),
    ("check a.sc b.sc", 2, "5||logika: read fault\n"),
    ("check a.sc none.sc", 1, "5||logika: read fault\n"),
    ("check a.sc none.sc", 2, "5||logika: read fault\n"),
    ("check none.sc a.sc", 2, "10||logika: no file none.sc\n"),
    (
        "check a.sc long.sc none.sc",
        NEVER,
        "8||logika: too large long.sc line 3\n",
    ),
    (
        "check none.sc long.sc",
        NEVER,
        "10||logika: no file none.sc\n",
    ),
    (
        "check long.sc b.sc",
        2,
        "8||logika: too large long.sc line 3\n",
    ),
];

// Files are read in the order of the words, and the first that fails, is missing or is too large decides.
#[test]
fn the_first_file_that_is_not_read_decides(rt: HostRuntime) -> Result<(), Fail> {
    let long = blanks(rt.alloc(), 2, 1_048_577)?;
    let files = [
        ("a.sc", b"def f(): Z = {\n  return y\n}\n".as_slice()),
        ("b.sc", b"val t: Z = T\n".as_slice()),
        ("empty.sc", b"".as_slice()),
        ("long.sc", long.as_slice()),
    ];
    for (line, read, left) in FILES.iter() {
        let run = run(&rt, rt.alloc(), line, b"", (1, NEVER, NEVER), &files, *read)?;
        assert_eq!(rt; run.as_str(), *left, "{line} {read}");
    }
    Ok(())
}

fn check(alloc: Global, text: &[u8], most: usize, take: u64) -> Result<String, Fail> {
    let mut source = source(alloc, text, most, take)?;
    let mut out = sink(alloc, 100, NEVER)?;
    let mut journal = sink(alloc, 100, NEVER)?;
    let mut folder = MemFolder::new(Vec::new(alloc), Vec::new(alloc));
    let status = check_once(alloc, &[], &mut source, &mut out, &mut journal, &mut folder);
    left(alloc, status.code, &out, &journal)
}

// A text of newlines and then spaces.
fn blanks(alloc: Global, newlines: usize, spaces: usize) -> Result<Vec<u8>, Fail> {
    let mut text = vec![in alloc; b'\n'; newlines]?;
    text.extend_from_slice(&vec![in alloc; b' '; spaces]?)?;
    Ok(text)
}

// At a limit nothing is refused. One byte more is, also where the take after it would fail: pieces have 65,536 bytes, so
// that of the line's last byte is the seventeenth.
#[test]
fn limits_are_exact(rt: HostRuntime) -> Result<(), Fail> {
    assert_eq!(rt; (LIMITS.bytes, LIMITS.line), (67_108_864, 1_048_576));
    for (newlines, spaces, take, left) in [
        (
            67_108_864,
            0,
            NEVER,
            "0|revision 1\nmethods 0 verified 0\n|",
        ),
        (
            67_108_865,
            0,
            NEVER,
            "8||logika: too large - line 67108865\n",
        ),
        (7, 1_048_576, NEVER, "0|revision 1\nmethods 0 verified 0\n|"),
        (7, 1_048_577, NEVER, "8||logika: too large - line 8\n"),
        (0, 1_048_577, 18, "8||logika: too large - line 1\n"),
        (0, 1_048_577, 17, "5||logika: read fault\n"),
    ] {
        let text = blanks(rt.alloc(), newlines, spaces)?;
        let check = check(rt.alloc(), &text, 100_000, take)?;
        assert_eq!(rt; check.as_str(), left, "{newlines} {spaces}");
    }
    Ok(())
}

#[test]
fn memory_may_run_out_before_the_words(rt: HostRuntime) -> Result<(), Fail> {
    let out = sink(rt.alloc(), 100, NEVER)?;
    let mut journal = sink(rt.alloc(), 100, NEVER)?;
    let status = end_without_memory(&mut journal);
    let left = left(rt.alloc(), status.code, &out, &journal)?;
    assert_eq!(rt; left.as_str(), "7||logika: no memory\n");
    Ok(())
}
