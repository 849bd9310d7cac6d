// Each public call of lk_io with ample memory, and each end that a call has.
use lk_io::{
    Failed, MemSink, MemSource, Sink, SinkEnd, Source, StdSink, StdSource, SureSink, give_all,
};
use std::alloc::Global;
use std::fmt::Write as _;
use std::io::{Error, ErrorKind, Read, Write};
use std::str;
use std::test::Fail;

fn numbers(alloc: Global, numbers: &[u64]) -> Result<Vec<u64>, Fail> {
    Ok(Vec::from_slice(alloc, numbers)?)
}

// What some takes answer, into a buffer of three bytes.
fn takes<S: Source>(alloc: Global, source: &mut S, calls: usize) -> Result<String, Fail> {
    let mut trace = String::new(alloc);
    let mut buffer = [0u8; 3];
    for _ in 0..calls {
        match source.take(&mut buffer) {
            Ok(n) => trace.push_str(str::from_utf8(&buffer[..n])?)?,
            Err(Failed) => trace.push('!')?,
        }
        trace.push(' ')?;
    }
    Ok(trace)
}

// What some calls of a sink answer: each piece is given, and an empty one stands for a flush.
fn gives<S: Sink>(alloc: Global, sink: &mut S, pieces: &[&str]) -> Result<String, Fail> {
    let mut trace = String::new(alloc);
    for piece in pieces {
        let answer = if piece.is_empty() {
            sink.flush().map(|_| 0)
        } else {
            sink.give(piece.as_bytes())
        };
        match answer {
            Ok(n) => write!(trace, "{n} ")?,
            Err(SinkEnd::Failed) => trace.push_str("! ")?,
            Err(SinkEnd::NoMemory) => trace.push_str("? ")?,
        }
    }
    Ok(trace)
}

#[test]
fn objects_in_memory_fail_where_listed(rt: HostRuntime) -> Result<(), Fail> {
    let alloc = rt.alloc();
    let bytes = Vec::from_slice(alloc, b"abcde")?;
    let mut source = MemSource::new(bytes, 2, numbers(alloc, &[2, 5])?);
    let answers = takes(alloc, &mut source, 7)?;
    assert_eq!(rt; answers.as_str(), "ab ! cd e !   ");

    let mut sink = MemSink::new(alloc, 2, numbers(alloc, &[2, 4])?);
    let answers = gives(alloc, &mut sink, &["abc", "c", "", "", "c"])?;
    assert_eq!(rt; answers.as_str(), "2 ! 0 ! 1 ");
    assert_eq!(rt; sink.bytes(), b"abc".as_slice());
    assert_eq!(rt; sink.handed_on(), b"ab".as_slice());

    let mut sure = SureSink::new(alloc);
    let answers = gives(alloc, &mut sure, &["abc", "", "de"])?;
    assert_eq!(rt; answers.as_str(), "3 0 2 ");
    assert_eq!(rt; sure.bytes(), b"abcde".as_slice());
    assert_eq!(rt; sure.handed_on(), b"abc".as_slice());
    Ok(())
}

fn given(alloc: Global, most: usize, fail: u64) -> Result<String, Fail> {
    let mut sink = MemSink::new(alloc, most.max(1), numbers(alloc, &[fail])?);
    let end = give_all(&mut sink, b"abcde");
    let text = str::from_utf8(sink.bytes())?;
    Ok(format!(in alloc; "{text} {end:?}")?)
}

#[test]
fn all_of_a_piece_is_given_or_a_front(rt: HostRuntime) -> Result<(), Fail> {
    for (most, fail, left) in [
        (1, 0, "abcde Ok(())"),
        (9, 0, "abcde Ok(())"),
        (2, 1, " Err(Failed { out: 0 })"),
        (2, 3, "abcd Err(Failed { out: 4 })"),
        (2, 4, "abcde Ok(())"),
    ] {
        let given = given(rt.alloc(), most, fail)?;
        assert_eq!(rt; given.as_str(), left, "{most} {fail}");
    }
    Ok(())
}

// What a call of a stream comes to: it is broken off by a signal, fails, or moves at most so many bytes.
#[derive(Clone, Copy)]
enum Call {
    BrokenOff,
    Fails,
    Moves(usize),
}

use Call::{BrokenOff, Fails, Moves};

// A stream whose calls do as they are told. Those after the told ones fail.
#[derive(Drop)]
struct Told {
    calls: [Call; 5],
    made: usize,
}

impl Told {
    fn new(calls: [Call; 5]) -> Told {
        Told { calls, made: 0 }
    }

    fn call(&mut self) -> std::io::Result<usize> {
        let call = self.calls.get(self.made).copied().unwrap_or(Fails);
        self.made = self.made.saturating_add(1);
        match call {
            BrokenOff => Err(Error::from(ErrorKind::Interrupted)),
            Fails => Err(Error::from(ErrorKind::BrokenPipe)),
            Moves(n) => Ok(n),
        }
    }
}

impl Read for Told {
    fn read(&mut self, buf: &mut [u8]) -> std::io::Result<usize> {
        let n = self.call()?.min(buf.len());
        buf[..n].fill(b'x');
        Ok(n)
    }
}

impl Write for Told {
    fn write(&mut self, buf: &[u8]) -> std::io::Result<usize> {
        Ok(self.call()?.min(buf.len()))
    }

    fn flush(&mut self) -> std::io::Result<()> {
        self.call()?;
        Ok(())
    }
}

// What the calls of a stream come to, and what three takes, gives and flushes over it answer. A call that is broken off is
// made again, one that fails is not, and a write of no byte is a fault.
static STREAMS: [([Call; 5], &str, &str, &str); 3] = [
    (
        [Moves(2), Moves(0), Moves(1), Fails, Fails],
        "xx  x ",
        "2 ! 1 ",
        "0 0 0 ",
    ),
    (
        [BrokenOff, Moves(1), BrokenOff, BrokenOff, Moves(2)],
        "x xx ! ",
        "1 2 ! ",
        "0 0 ! ",
    ),
    (
        [Fails, Moves(1), Fails, Moves(1), Moves(1)],
        "! x ! ",
        "! 1 ! ",
        "! 0 ! ",
    ),
];

#[test]
fn streams_fail_as_they_are_told(rt: HostRuntime) -> Result<(), Fail> {
    let alloc = rt.alloc();
    for (calls, taken, given, flushed) in STREAMS.iter() {
        let answers = takes(alloc, &mut StdSource::new(Told::new(*calls)), 3)?;
        assert_eq!(rt; answers.as_str(), *taken);
        let answers = gives(
            alloc,
            &mut StdSink::new(Told::new(*calls)),
            &["ab", "ab", "ab"],
        )?;
        assert_eq!(rt; answers.as_str(), *given);
        let answers = gives(alloc, &mut StdSink::new(Told::new(*calls)), &["", "", ""])?;
        assert_eq!(rt; answers.as_str(), *flushed);
    }
    Ok(())
}

#[test]
fn streams_of_std_are_read(rt: HostRuntime) -> Result<(), Fail> {
    let mut source = StdSource::new(b"abcd".as_slice());
    let answers = takes(rt.alloc(), &mut source, 3)?;
    assert_eq!(rt; answers.as_str(), "abc d  ");
    Ok(())
}
