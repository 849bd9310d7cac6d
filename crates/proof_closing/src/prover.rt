ghost use Rattle.std.specs.Prelude.{◌≡◌, ℕ, Bool, IfOk};
ghost use Rattle.validity.specs.Validity.{SequentTree};
ghost use Rattle.proof_closing.specs.Prover.{plain_sequent, IsAnswer, Work, IsCurrent, Leaves, stop_of};

use lk_terms::Sequent;
use std::alloc::Global;

/// Whether a sequent is closed.
#[derive(Clone, Copy, Debug, PartialEq, Eq)]
pub enum Closing {
    Yes,
    No,
}

/// Why a prover did not answer.
#[derive(Clone, Copy, Debug, PartialEq, Eq)]
pub enum CloseEnd {
    /// It was told of later work, by its number.
    Stopped { told: u64 },
    NoMemory,
}

/// What closes the sequents of `Algebra` and `Auto`.
pub trait Prover {
    /// which sequents it closes
    ghost closes: { SequentTree → Bool };

    /// the work that it does, and the latest that it was told of
    ghost work: { Self → Work };

    fn close(&mut self, alloc: Global, sequent: &Sequent) -> Result<Closing, CloseEnd>
        requires { IsCurrent (work self.old) }
        ensures answer { IfOk result (λ answer. IsAnswer answer (closes (plain_sequent sequent.now))) }
        ensures leaves { Leaves (work self.old) (work self.new) (stop_of result) };
}
