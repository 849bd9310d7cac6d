ghost use Rattle.std.specs.Prelude.{◌≡◌, ◌↔◌, IsTrue};
ghost use Rattle.std.specs.IoError.{error_kind};
ghost use Rattle.lk_io.specs.Run.{one_more};

use crate::{Failed, Sink, SinkEnd, Source};
use std::io::{Error, ErrorKind, Read, Write};
use std::marker::Model;

/// One of std's readers. It tells the bytes that the reader tells, of which a stream of the system tells none, and counts
/// the reads that failed.
#[derive(Drop)]
pub struct StdSource<R: Read + Drop> {
    reader: R,
    faults: u64,
}

impl<R: Read + Drop> Model for StdSource<R> {
    ghost use Rattle.lk_io.specs.Source.{SourceState};

    ghost Value = { SourceState };

    ghost view = { λ s. record { left = R.remaining s.reader; faults = s.faults } };
}

impl<R: Read + Drop> StdSource<R> {
    pub fn new(reader: R) -> StdSource<R>
        ensures { result ≡ record { left = R.remaining reader; faults = 0 } }
    {
        StdSource { reader, faults: 0 }
    }
}

impl<R: Read + Drop> Source for StdSource<R> {
    ghost state = { λ s. s };

    fn take(&mut self, buf: &mut [u8]) -> Result<usize, Failed> {
        'tries: for _ in 0..u64::MAX {
            match self.reader.read(buf) {
                Ok(n) => return Ok(n),
                Err(e) => {
                    if !is_interrupted(&e) {
                        break;
                    }
                }
            }
        }
        self.faults = self.faults.saturating_add(1);
        Err(Failed)
    }
}

/// One of std's writers. It tells the bytes that the writer tells, of which a stream of the system tells none, and not how
/// many of them it has handed on. It counts the writes and flushes that failed, a write of no byte among them, and never
/// answers want of memory.
#[derive(Drop)]
pub struct StdSink<W: Write + Drop> {
    writer: W,
    faults: u64,
}

impl<W: Write + Drop> Model for StdSink<W> {
    ghost use Rattle.std.specs.Prelude.{None};
    ghost use Rattle.lk_io.specs.Sink.{SinkState};

    ghost Value = { SinkState };

    ghost view = { λ s. record { given = W.contents s.writer; handed = None; faults = s.faults; refusals = 0 } };
}

impl<W: Write + Drop> StdSink<W> {
    pub fn new(writer: W) -> StdSink<W>
        ensures { result ≡ record { given = W.contents writer; handed = None; faults = 0; refusals = 0 } }
    {
        StdSink { writer, faults: 0 }
    }

    fn fail(&mut self) -> SinkEnd
        ensures failed { result ≡ SinkEnd.Failed }
        ensures counted { self.new ≡ record self.old { faults = one_more self.old.faults } }
    {
        self.faults = self.faults.saturating_add(1);
        SinkEnd::Failed
    }
}

impl<W: Write + Drop> Sink for StdSink<W> {
    ghost state = { λ s. s };

    fn give(&mut self, piece: &[u8]) -> Result<usize, SinkEnd> {
        'tries: for _ in 0..u64::MAX {
            match self.writer.write(piece) {
                Ok(0) => break,
                Ok(n) => return Ok(n),
                Err(e) => {
                    if !is_interrupted(&e) {
                        break;
                    }
                }
            }
        }
        Err(self.fail())
    }

    fn flush(&mut self) -> Result<(), SinkEnd> {
        'tries: for _ in 0..u64::MAX {
            match self.writer.flush() {
                Ok(()) => return Ok(()),
                Err(e) => {
                    if !is_interrupted(&e) {
                        break;
                    }
                }
            }
        }
        Err(self.fail())
    }
}

/// A call that a signal broke off is made again.
pub(crate) fn is_interrupted(e: &Error) -> bool
    ensures { IsTrue result ↔ (error_kind e.now ≡ ErrorKind.Interrupted) }
{
    e.kind() == ErrorKind::Interrupted
}
