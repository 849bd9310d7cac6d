ghost use Rattle.std.specs.List.{flat_map};
ghost use Rattle.lk_io.specs.Run.{run};
ghost use Rattle.command_ends.specs.Writing.{Writes};

use lk_io::{Sink, SinkEnd, give_all};

/// Gives the pieces, one after the other, and hands them on.
pub fn write_pieces<S: Sink>(sink: &mut S, pieces: &[&[u8]]) -> Result<(), SinkEnd>
    ensures { Writes (run (S.state sink.old) (S.state sink.new))
        (flat_map (λ piece. piece.now) pieces.now) result }
{
    for piece in pieces {
        give_all(sink, piece)?;
    }
    sink.flush()
}
