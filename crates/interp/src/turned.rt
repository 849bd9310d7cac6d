ghost use Rattle.std.specs.Prelude.{◌≡◌};
ghost use Rattle.interp.specs.Ends.{told_of, is_going};

use lk_programs::{Kind, NodeNo};
use run_steps::RunEnd;

/// What became of a run with the turns that it was given: it has ended, it goes on where it has more turns, it fails, a value does not fit, or a claim
/// has no visit left, each with the node of which it is told; or memory was wanting.
#[derive(Clone, Copy, Debug, PartialEq, Eq)]
pub enum Turned {
    Ended,
    Going,
    Fails { kind: Kind, node: NodeNo },
    Wide { node: NodeNo },
    Visits { node: NodeNo },
    NoMemory,
}

impl Turned {
    /// Whether the run goes on where it has more turns.
    pub fn is_going(self) -> bool
        ensures { result ≡ is_going self }
    {
        match self {
            Turned::Going => true,
            Turned::Ended
            | Turned::Fails { .. }
            | Turned::Wide { .. }
            | Turned::Visits { .. }
            | Turned::NoMemory => false,
        }
    }
}

/// What is told of a run that has stopped so.
pub fn told_of(end: RunEnd) -> Turned
    ensures { result ≡ told_of end }
{
    match end {
        RunEnd::Fails(kind, node) => Turned::Fails { kind, node },
        RunEnd::Wide(node) => Turned::Wide { node },
        RunEnd::Visits(node) => Turned::Visits { node },
        RunEnd::NoMemory => Turned::NoMemory,
    }
}
