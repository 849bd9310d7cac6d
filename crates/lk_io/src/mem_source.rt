ghost use Rattle.std.specs.Prelude.{◌≡◌, ◌<◌, ◌≤◌, ◌↔◌, [], Contains, IsErr, length, min, take};
ghost use Rattle.lk_io.specs.Run.{run, one_more};
ghost use Rattle.lk_io.specs.Source.{Takes};

use crate::calls::Calls;
use crate::{Failed, Source};
use std::marker::Model;

/// A source in memory.
#[derive(Drop)]
pub struct MemSource {
    bytes: Vec<u8>,
    at: usize,
    most: usize,
    calls: Calls,
}

impl Model for MemSource {
    ghost use Rattle.std.specs.Prelude.{◌≤◌, drop, vec_len};
    ghost use Rattle.lk_io.specs.Memory.{SourceInMemory};

    ghost Value = { SourceInMemory };

    ghost view = { λ s. record {
      left = drop s.at s.bytes.items;
      most = s.most;
      fail_at = s.calls.fail_at.items;
      calls = s.calls.made;
      faults = s.calls.failed;
    } };

    ghost invariant = { λ s. (s.at ≤ vec_len s.bytes) × (1 ≤ s.most) };
}

impl MemSource {
    /// A source of these bytes. One call takes at most `most` of them, and the calls listed in `fail_at`, counted from
    /// 1, fail.
    pub fn new(bytes: Vec<u8>, most: usize, fail_at: Vec<u64>) -> MemSource
        requires { 1 ≤ most }
        ensures { result ≡ record { left = bytes.items; most = most; fail_at = fail_at.items; calls = 0; faults = 0 } }
    {
        MemSource {
            bytes,
            at: 0,
            most,
            calls: Calls::new(fail_at),
        }
    }
}

impl Source for MemSource {
    ghost use Rattle.lk_io.specs.Memory.{source_state, TakesFromMemory};

    ghost state = { source_state };

    fn take(&mut self, buf: &mut [u8]) -> Result<usize, Failed>
        requires { 0 < length buf.old }
        ensures takes { Takes (run (source_state self.old) (source_state self.new)) buf.new result }
        ensures listed { IsErr result ↔ Contains self.old.fail_at (one_more self.old.calls) }
        ensures exact { TakesFromMemory self.old (length buf.old) result self.new }
    {
        self.calls.begin()?;
        let n = copy_front(&self.bytes[self.at..], self.most, buf);
        self.at += n;
        Ok(n)
    }
}

/// Copies at most so many of the bytes to the front of the buffer, and answers how many.
fn copy_front(bytes: &[u8], most: usize, buf: &mut [u8]) -> usize
    ensures count { result ≡ min (min (length buf.old) most) (length bytes.now) }
    ensures front { take result buf.new ≡ take result bytes.now }
{
    let n = buf.len().min(most).min(bytes.len());
    buf[..n].copy_from_slice(&bytes[..n]);
    n
}
