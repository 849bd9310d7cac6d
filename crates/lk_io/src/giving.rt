ghost use Rattle.lk_io.specs.Run.{run};
ghost use Rattle.lk_io.specs.Sink.{KeepsHanded};
ghost use Rattle.lk_io.specs.GiveAll.{GivesAll};

use crate::{Sink, SinkEnd};

/// Why a sink did not take a whole piece. It was given the first `out` bytes.
#[derive(Debug, Drop, PartialEq, Eq)]
pub enum GiveEnd {
    Failed { out: usize },
    NoMemory { out: usize },
}

/// The end alone, without how much was given.
impl From<GiveEnd> for SinkEnd {
    ghost use Rattle.std.specs.Prelude.{◌≡◌};
    ghost use Rattle.lk_io.specs.GiveAll.{end_alone};

    ghost from_gives = { λ end e. e ≡ end_alone end };

    fn from(end: GiveEnd) -> SinkEnd {
        match end {
            GiveEnd::Failed { .. } => SinkEnd::Failed,
            GiveEnd::NoMemory { .. } => SinkEnd::NoMemory,
        }
    }
}

/// Gives the whole piece, in as many calls as the sink needs. The first call that fails or finds no memory ends it.
pub fn give_all<S: Sink>(sink: &mut S, piece: &[u8]) -> Result<(), GiveEnd>
    ensures gives { GivesAll (run (S.state sink.old) (S.state sink.new)) piece.now result }
    ensures handed { KeepsHanded (run (S.state sink.old) (S.state sink.new)) }
{
    let mut out = 0;
    while out < piece.len() {
        match sink.give(&piece[out..]) {
            Ok(n) => out += n,
            Err(SinkEnd::Failed) => return Err(GiveEnd::Failed { out }),
            Err(SinkEnd::NoMemory) => return Err(GiveEnd::NoMemory { out }),
        }
    }
    Ok(())
}
