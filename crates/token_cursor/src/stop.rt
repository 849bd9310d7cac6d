ghost use Rattle.std.specs.Prelude.{◌≡◌, IsOk, MatchResult};

use std::alloc::{AllocError, AllocFailed};

/// What may come where a token is refused, as far as the code of a fault goes by it.
#[derive(Clone, Copy, Debug, PartialEq, Eq)]
pub enum Due {
    /// The label of a step.
    Label,
    /// The word `Invariant`.
    Invariant,
    /// An operand.
    Operand,
    Other,
}

/// Why reading stops.
#[derive(Clone, Copy, Debug, PartialEq, Eq)]
pub enum Stop {
    /// No text goes on with the token at which the cursor stands, or ends there.
    Refused(Due),
    NoMemory,
}

impl From<AllocError> for Stop {
    ghost use Rattle.token_cursor.specs.declared.stop.Stop.TheVariants.{NoMemory};

    ghost from_gives = { λ _ stop. stop ≡ NoMemory };

    fn from(_error: AllocError) -> Stop {
        Stop::NoMemory
    }
}

impl<T: Drop> From<AllocFailed<T>> for Stop {
    ghost use Rattle.token_cursor.specs.declared.stop.Stop.TheVariants.{NoMemory};

    ghost from_gives = { λ _ stop. stop ≡ NoMemory };

    fn from(_error: AllocFailed<T>) -> Stop {
        Stop::NoMemory
    }
}

/// The part, where what comes behind it was read too.
pub fn kept<T: Drop>(part: T, behind: Result<(), Stop>) -> Result<T, Stop>
    ensures { MatchResult result (λ it. (it ≡ part) × IsOk behind) (λ stop. behind ≡ Err stop) }
{
    match behind {
        Ok(()) => Ok(part),
        Err(stop) => Err(stop),
    }
}
