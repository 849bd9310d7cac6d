ghost use Rattle.std.specs.Prelude.{◌<◌, length, MatchResult};
ghost use Rattle.lk_io.specs.Run.{run};
ghost use Rattle.text_reading.specs.Reading.{ReadsWhole, ReadEnds};

use crate::gauge::{Gauge, TooLarge};
use crate::limits::Limits;
use lk_io::{Failed, Source};
use std::alloc::{AllocError, Global};

/// Why a source was not read to its end.
#[derive(Debug, Drop, PartialEq, Eq)]
pub enum ReadEnd {
    ReadFault,
    TooLarge { line: u64 },
    NoMemory,
}

impl From<Failed> for ReadEnd {
    ghost use Rattle.std.specs.Prelude.{◌≡◌};
    ghost use Rattle.text_reading.specs.declared.reading.ReadEnd.TheVariants.{ReadFault};

    ghost from_gives = { λ _ e. e ≡ ReadFault };

    fn from(_failed: Failed) -> ReadEnd {
        ReadEnd::ReadFault
    }
}

impl From<TooLarge> for ReadEnd {
    ghost use Rattle.std.specs.Prelude.{◌≡◌};
    ghost use Rattle.text_reading.specs.declared.reading.ReadEnd.TheVariants.{TooLarge};

    ghost from_gives = { λ past e. e ≡ TooLarge past.line };

    fn from(past: TooLarge) -> ReadEnd {
        ReadEnd::TooLarge { line: past.line }
    }
}

impl From<AllocError> for ReadEnd {
    ghost use Rattle.std.specs.Prelude.{◌≡◌};
    ghost use Rattle.text_reading.specs.declared.reading.ReadEnd.TheVariants.{NoMemory};

    ghost from_gives = { λ _ e. e ≡ NoMemory };

    fn from(_refused: AllocError) -> ReadEnd {
        ReadEnd::NoMemory
    }
}

/// The bytes of one piece.
const PIECE: usize = 65_536;

/// Reads the source to its end. The first byte past a limit ends it.
pub fn read_text<S: Source>(
    alloc: Global,
    source: &mut S,
    limits: Limits,
) -> Result<Vec<u8>, ReadEnd>
    ensures { MatchResult result
        (λ text. ReadsWhole limits (run (S.state source.old) (S.state source.new)) text.items)
        (ReadEnds limits (run (S.state source.old) (S.state source.new))) }
{
    let mut buffer = vec![in alloc; 0u8; PIECE]?;
    read_pieces(alloc, source, &mut buffer, limits)
}

fn read_pieces<S: Source>(
    alloc: Global,
    source: &mut S,
    buffer: &mut [u8],
    limits: Limits,
) -> Result<Vec<u8>, ReadEnd>
    requires { 0 < length buffer.old }
    ensures { MatchResult result
        (λ text. ReadsWhole limits (run (S.state source.old) (S.state source.new)) text.items)
        (ReadEnds limits (run (S.state source.old) (S.state source.new))) }
{
    let mut gauge = Gauge::new(limits);
    let mut text = Vec::new(alloc);
    'pieces: loop {
        let n = source.take(buffer)?;
        if n == 0 {
            return Ok(text);
        }
        let piece = &buffer[..n];
        gauge.count(piece)?;
        text.extend_from_slice(piece)?;
    }
}
