ghost use Rattle.std.specs.Prelude.{◌≡◌};
ghost use Rattle.deduction.specs.End.{end_of_closing};

use proof_closing::CloseEnd;

/// Why a step is refused.
#[derive(Clone, Copy, Debug, PartialEq, Eq)]
pub enum BadStep {
    /// That label, the first of those cited, is not visible.
    Cite(u32),
    /// The claim has not the form that the rule gives it, from what is cited.
    Shape,
    /// A symbol stands outside its block.
    Symbol,
    /// What `Auto` or `Algebra` claims is not closed.
    NotClosed,
}

/// Why a proof has no claims.
#[derive(Clone, Copy, Debug, PartialEq, Eq)]
pub enum ProofEnd {
    /// The first refused step or assumption, by its label.
    Bad { step: u32, reason: BadStep },
    /// The prover was told of later work.
    Stopped { told: u64 },
    NoMemory,
}

/// The same end, of a proof.
pub fn proof_end(end: CloseEnd) -> ProofEnd
    ensures { result ≡ end_of_closing end }
{
    match end {
        CloseEnd::Stopped { told } => ProofEnd::Stopped { told },
        CloseEnd::NoMemory => ProofEnd::NoMemory,
    }
}
