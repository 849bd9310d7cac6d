ghost use Rattle.std.specs.Prelude.{◌≡◌};
ghost use Rattle.leg_check.specs.Keys.{settled_as};

use leg_answers::CloseEnd;
use program_trees::Answer;

/// Why there is no answer.
#[derive(Clone, Copy, Debug, PartialEq, Eq)]
pub enum LegEnd {
    /// The bytes are the key of no well-formed leg.
    BadKey,
    /// It was told of later work, by its number.
    Stopped { told: u64 },
    NoMemory,
}

/// The answer for a leg as that of its key.
pub fn settled(answer: Result<Answer, CloseEnd>) -> Result<Answer, LegEnd>
    ensures { result ≡ settled_as answer }
{
    match answer {
        Ok(answer) => Ok(answer),
        Err(end) => match end {
            CloseEnd::Stopped { told } => Err(LegEnd::Stopped { told }),
            CloseEnd::NoMemory => Err(LegEnd::NoMemory),
        },
    }
}
