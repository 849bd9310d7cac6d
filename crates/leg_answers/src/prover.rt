ghost use Rattle.std.specs.Prelude.{◌≡◌, Option, IfOk};
ghost use Rattle.validity.specs.Validity.{SequentTree, IsWellSorted};
ghost use Rattle.program_trees.specs.declared.answer.Reason.{Reason};
ghost use Rattle.term_store.specs.Store.{Grows};
ghost use Rattle.term_store.specs.Sequent.{sequent_at, IsSequentWithin};
ghost use Rattle.proof_closing.specs.Prover.{IsCurrent, Leaves, stop_of};

use deduction::{CloseEnd, Prover};
use program_trees::Reason as Why;
use std::alloc::Global;
use term_store::{IdSequent, TermStore};

/// What closes the sequents of a leg, and those of its proofs.
pub trait LegProver: Prover {
    /// why it does not close a sequent, where it does not
    ghost reason: { SequentTree → Option Reason };

    /// Why it does not close the sequent of these numbers, where it does not. It may add to the store.
    fn unclosed(
        &mut self,
        alloc: Global,
        store: &mut TermStore,
        sequent: &IdSequent,
    ) -> Result<Option<Why>, CloseEnd>
        requires current { IsCurrent (Self.work self.old) }
        requires within { IsSequentWithin store.old sequent.now }
        requires sorted { IsWellSorted (sequent_at store.old sequent.now) }
        ensures answer { IfOk result (λ told. told ≡ reason (sequent_at store.old sequent.now)) }
        ensures grows { Grows store.old store.new }
        ensures leaves { Leaves (Self.work self.old) (Self.work self.new) (stop_of result) };
}
