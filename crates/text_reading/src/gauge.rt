ghost use Rattle.std.specs.Prelude.{◌≡◌, ◌∷◌, [], ◌++◌, ◌≤◌, List, ℕ, MatchResult};

use crate::limits::Limits;

/// A byte is past a limit. It stands in this line, counted from 1.
#[derive(Debug, Drop, PartialEq, Eq)]
pub(crate) struct TooLarge {
    pub(crate) line: u64,
}

/// Counts the bytes of a text as it is read, and finds the first that is past a limit.
#[derive(Drop)]
pub(crate) struct Gauge {
    limits: Limits,
    bytes: u32,
    newlines: u32,
    column: u32,
    ghost fits: { newlines ≤ bytes },
}

impl Gauge {
    ghost use Rattle.text_reading.specs.Gauge.{HasCounted};
    ghost use Rattle.text_reading.specs.Limits.{PassesIn};

    pub(crate) fn new(limits: Limits) -> Gauge
        ensures limits { result.limits ≡ limits }
        ensures counted { HasCounted result [] }
    {
        Gauge {
            limits,
            bytes: 0,
            newlines: 0,
            column: 0,
        }
    }

    /// Counts the piece.
    pub(crate) fn count(&mut self, piece: &[u8]) -> Result<(), TooLarge>
        ensures limits { self.new.limits ≡ self.old.limits }
        ensures counts { (text : List ℕ) → HasCounted self.old text → MatchResult result
            (λ _. HasCounted self.new (text ++ piece.now))
            (λ past. PassesIn self.old.limits (text ++ piece.now) past.line) }
    {
        for byte in piece {
            self.count_byte(*byte)?;
        }
        Ok(())
    }

    fn count_byte(&mut self, byte: u8) -> Result<(), TooLarge>
        ensures limits { self.new.limits ≡ self.old.limits }
        ensures counts { (text : List ℕ) → HasCounted self.old text → MatchResult result
            (λ _. HasCounted self.new (text ++ byte ∷ []))
            (λ past. PassesIn self.old.limits (text ++ byte ∷ []) past.line) }
    {
        let line = u64::from(self.newlines) + 1;
        if self.bytes >= self.limits.bytes {
            return Err(TooLarge { line });
        }
        self.bytes += 1;
        if byte == b'\n' {
            self.newlines += 1;
            self.column = 0;
            return Ok(());
        }
        if self.column >= self.limits.line {
            return Err(TooLarge { line });
        }
        self.column += 1;
        Ok(())
    }
}
