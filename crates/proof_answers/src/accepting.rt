ghost use Rattle.std.specs.Prelude.{◌≡◌, IfOk, IfErr};
ghost use Rattle.deduction_rules.specs.Deduction.{deduction};
ghost use Rattle.deduction_rules.specs.Laws.{ClosesValid};
ghost use Rattle.verdict_laws.specs.Rules.{refused_label};
ghost use Rattle.proof_closing.specs.Prover.{plain_sequent, IsCurrent, Leaves, stop_of};
ghost use Rattle.deduction.specs.Steps.{step_trees};
ghost use Rattle.deduction.specs.Checking.{AreSortedOver};
ghost use Rattle.deduction.specs.End.{EndsProof, stop_of_proof};
ghost use Rattle.proof_answers.specs.Accepted.{AreValidOver, UnlessRefused, AreOutermost};

use deduction::{ProofEnd, Prover, check_proof};
use lk_terms::{Sequent, StepTerm, Term};
use proof_closing::CloseEnd;
use sqlite_items::Items;
use std::alloc::Global;

/// The claims of the outermost steps of an accepted proof. Where what the prover closes is valid, so is each of them over
/// the facts.
pub fn accepted_claims<P: Prover>(
    alloc: Global,
    base: &Sequent,
    steps: &[StepTerm],
    prover: &mut P,
) -> Result<Items<Term>, ProofEnd>
    requires current { IsCurrent (P.work prover.old) }
    requires sorted { AreSortedOver (plain_sequent base.now) (step_trees steps.now) }
    ensures outermost { IfOk result (λ claims. AreOutermost claims (step_trees steps.now)) }
    ensures valid { ClosesValid P.closes →
        IfOk result (λ claims. AreValidOver (plain_sequent base.now) (step_trees steps.now)) }
    ensures refused { IfErr result (λ end.
        EndsProof end (deduction P.closes (plain_sequent base.now) (step_trees steps.now))) }
    ensures leaves { Leaves (P.work prover.old) (P.work prover.new) (stop_of_proof result) }
{
    check_proof(alloc, base, steps, prover)
}

/// The label of the first step or assumption that is refused, where one is. Else each outermost claim is valid over the
/// facts, where what the prover closes is.
pub fn refused_step<P: Prover>(
    alloc: Global,
    base: &Sequent,
    steps: &[StepTerm],
    prover: &mut P,
) -> Result<Option<u32>, CloseEnd>
    requires current { IsCurrent (P.work prover.old) }
    requires sorted { AreSortedOver (plain_sequent base.now) (step_trees steps.now) }
    ensures label { IfOk result
        (λ label. label ≡ refused_label (deduction P.closes (plain_sequent base.now) (step_trees steps.now))) }
    ensures valid { ClosesValid P.closes →
        IfOk result (λ label. UnlessRefused label (plain_sequent base.now) (step_trees steps.now)) }
    ensures leaves { Leaves (P.work prover.old) (P.work prover.new) (stop_of result) }
{
    match check_proof(alloc, base, steps, prover) {
        Ok(_) => Ok(None),
        Err(end) => match end {
            ProofEnd::Bad { step, .. } => Ok(Some(step)),
            ProofEnd::Stopped { told } => Err(CloseEnd::Stopped { told }),
            ProofEnd::NoMemory => Err(CloseEnd::NoMemory),
        },
    }
}
