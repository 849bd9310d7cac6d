ghost use Rattle.std.specs.Prelude.{◌≡◌, ◌<◌, ◌≤◌, ◌↔◌, [], Contains, IsErrOf, IsOk, length, take};
ghost use Rattle.lk_io.specs.Run.{run, one_more};
ghost use Rattle.lk_io.specs.Sink.{Gives, Flushes};

use crate::calls::Calls;
use crate::{Sink, SinkEnd};
use std::alloc::Global;
use std::marker::Model;

/// A sink in memory that takes each piece whole, as long as there is memory.
#[derive(Drop)]
pub struct SureSink {
    given: Vec<u8>,
    handed: usize,
    refusals: u64,
}

impl Model for SureSink {
    ghost use Rattle.std.specs.Prelude.{◌≤◌, vec_len};
    ghost use Rattle.lk_io.specs.Memory.{SureSinkInMemory};

    ghost Value = { SureSinkInMemory };

    ghost view = { λ s. record { given = s.given.items; handed = s.handed; refusals = s.refusals } };

    ghost invariant = { λ s. s.handed ≤ vec_len s.given };
}

impl SureSink {
    pub fn new(alloc: Global) -> SureSink
        ensures { result ≡ record { given = []; handed = 0; refusals = 0 } }
    {
        SureSink {
            given: Vec::new(alloc),
            handed: 0,
            refusals: 0,
        }
    }

    /// What was given.
    pub fn bytes(&self) -> &[u8]
        ensures { result.now ≡ self.now.given }
    {
        &self.given
    }

    /// What was handed on.
    pub fn handed_on(&self) -> &[u8]
        ensures { result.now ≡ take self.now.handed self.now.given }
    {
        &self.given[..self.handed]
    }
}

impl Sink for SureSink {
    ghost use Rattle.lk_io.specs.Memory.{sure_sink_state, GivesSurely};

    ghost state = { sure_sink_state };

    fn give(&mut self, piece: &[u8]) -> Result<usize, SinkEnd>
        requires { 0 < length piece.now }
        ensures gives { Gives (run (sure_sink_state self.old) (sure_sink_state self.new)) piece.now result }
        ensures exact { GivesSurely self.old piece.now result self.new }
    {
        if self.given.extend_from_slice(piece).is_err() {
            self.refusals = self.refusals.saturating_add(1);
            return Err(SinkEnd::NoMemory);
        }
        Ok(piece.len())
    }

    fn flush(&mut self) -> Result<(), SinkEnd>
        ensures flushes { Flushes (run (sure_sink_state self.old) (sure_sink_state self.new)) result }
        ensures exact { self.new ≡ record self.old { handed = length self.old.given } }
        ensures ok { IsOk result }
    {
        self.handed = self.given.len();
        Ok(())
    }
}

/// A sink in memory of which some calls fail.
#[derive(Drop)]
pub struct MemSink {
    inner: SureSink,
    most: usize,
    calls: Calls,
}

impl Model for MemSink {
    ghost use Rattle.std.specs.Prelude.{◌≤◌};
    ghost use Rattle.lk_io.specs.Memory.{SinkInMemory};

    ghost Value = { SinkInMemory };

    ghost view = { λ s. record {
      given = s.inner.given;
      handed = s.inner.handed;
      most = s.most;
      fail_at = s.calls.fail_at.items;
      calls = s.calls.made;
      faults = s.calls.failed;
      refusals = s.inner.refusals;
    } };

    ghost invariant = { λ s. 1 ≤ s.most };
}

impl MemSink {
    /// An empty sink. One call takes at most `most` bytes, and the calls of `give` and `flush` listed in `fail_at`,
    /// counted from 1, fail.
    pub fn new(alloc: Global, most: usize, fail_at: Vec<u64>) -> MemSink
        requires { 1 ≤ most }
        ensures { result ≡ record { given = []; handed = 0; most = most; fail_at = fail_at.items; calls = 0; faults = 0; refusals = 0 } }
    {
        MemSink {
            inner: SureSink::new(alloc),
            most,
            calls: Calls::new(fail_at),
        }
    }

    /// What was given.
    pub fn bytes(&self) -> &[u8]
        ensures { result.now ≡ self.now.given }
    {
        self.inner.bytes()
    }

    /// What was handed on.
    pub fn handed_on(&self) -> &[u8]
        ensures { result.now ≡ take self.now.handed self.now.given }
    {
        self.inner.handed_on()
    }
}

impl Sink for MemSink {
    ghost use Rattle.lk_io.specs.Memory.{sink_state, GivesToMemory, FlushesMemory};

    ghost state = { sink_state };

    fn give(&mut self, piece: &[u8]) -> Result<usize, SinkEnd>
        requires { 0 < length piece.now }
        ensures gives { Gives (run (sink_state self.old) (sink_state self.new)) piece.now result }
        ensures listed { IsErrOf result SinkEnd.Failed ↔ Contains self.old.fail_at (one_more self.old.calls) }
        ensures exact { GivesToMemory self.old piece.now result self.new }
    {
        self.calls.begin()?;
        let n = piece.len().min(self.most);
        self.inner.give(&piece[..n])
    }

    fn flush(&mut self) -> Result<(), SinkEnd>
        ensures flushes { Flushes (run (sink_state self.old) (sink_state self.new)) result }
        ensures listed { IsErrOf result SinkEnd.Failed ↔ Contains self.old.fail_at (one_more self.old.calls) }
        ensures exact { FlushesMemory self.old result self.new }
    {
        self.calls.begin()?;
        self.inner.flush()
    }
}
