ghost use Rattle.std.specs.Prelude.{◌<◌, length};
ghost use Rattle.lk_io.specs.Run.{run};
ghost use Rattle.lk_io.specs.Sink.{SinkState, Gives, Flushes};

use crate::Failed;

/// Why a sink did not take what it was given.
#[derive(Debug, Drop, PartialEq, Eq)]
pub enum SinkEnd {
    Failed,
    NoMemory,
}

/// Where bytes go.
pub trait Sink {
    ghost state: { Self → SinkState };

    /// Takes a front of the piece that is not empty, and answers its length. A call that fails or finds no memory takes
    /// nothing.
    fn give(&mut self, piece: &[u8]) -> Result<usize, SinkEnd>
        requires { 0 < length piece.now }
        ensures { Gives (run (state self.old) (state self.new)) piece.now result };

    /// Hands on what was taken.
    fn flush(&mut self) -> Result<(), SinkEnd>
        ensures { Flushes (run (state self.old) (state self.new)) result };
}

impl From<Failed> for SinkEnd {
    ghost use Rattle.std.specs.Prelude.{◌≡◌};
    ghost use Rattle.lk_io.specs.declared.sinks.SinkEnd.TheVariants.{Failed as failed};

    ghost from_gives = { λ _ e. e ≡ failed };

    fn from(_failed: Failed) -> SinkEnd {
        SinkEnd::Failed
    }
}
