ghost use Rattle.std.specs.Prelude.{◌≡◌, ◌<◌, ◌++◌, ◌∷◌, [], length, map, IfOk, OnOk};
ghost use Rattle.std.specs.List.{AllByRecursion};
ghost use Rattle.leg_forms.specs.WellFormed.{IsWellFormedLeg};
ghost use Rattle.leg_rules.specs.Answers.{leg_answer, verdict};
ghost use Rattle.lk_programs.specs.LegData.{leg_tree};
ghost use Rattle.leg_orders.specs.Places.{program_of, method_of};
ghost use Rattle.legs.specs.Legs.{AreLegs};
ghost use Rattle.proof_closing.specs.Prover.{IsCurrent, Leaves, stop_of};
ghost use Rattle.leg_answers.specs.Answering.{accepting_by};
ghost use Rattle.verdicts.specs.Choice.{plain_verdict};

use leg_answers::{CloseEnd, LegProver, leg_answer};
use legs::{LegsEnd, legs_of};
use lk_programs::{Leg, Legs, Typed};
use program_trees::Answer;
use sqlite_items::Items;
use std::alloc::Global;
use verdicts::{Verdict, method_verdict};

/// Adds the answer for a leg.
fn add_answer<P: LegProver>(
    alloc: Global,
    leg: &Leg,
    prover: &mut P,
    answers: &mut Items<Answer>,
) -> Result<(), CloseEnd>
    requires current { IsCurrent (P.work prover.old) }
    requires well_formed { IsWellFormedLeg (leg_tree leg.now) }
    ensures answers { OnOk result (answers.new ≡ answers.old ++ leg_answer P.reason (accepting_by P.closes) (leg_tree leg.now) ∷ []) }
    ensures leaves { Leaves (P.work prover.old) (P.work prover.new) (stop_of result) }
{
    match leg_answer(alloc, leg, prover) {
        Err(end) => Err(end),
        Ok(answer) => match answers.push(answer) {
            Ok(()) => Ok(()),
            Err(_) => Err(CloseEnd::NoMemory),
        },
    }
}

/// Adds the answer for each leg.
fn add_answers<P: LegProver>(
    alloc: Global,
    legs: &[Leg],
    prover: &mut P,
    answers: &mut Items<Answer>,
) -> Result<(), CloseEnd>
    requires current { IsCurrent (P.work prover.old) }
    requires well_formed { AllByRecursion (λ leg. IsWellFormedLeg (leg_tree leg)) legs.now }
    ensures answers { OnOk result
        (answers.new ≡ answers.old ++ map (λ leg. leg_answer P.reason (accepting_by P.closes) (leg_tree leg)) legs.now) }
    ensures leaves { Leaves (P.work prover.old) (P.work prover.new) (stop_of result) }
{
    for leg in legs {
        match add_answer(alloc, leg, prover, answers) {
            Ok(()) => {}
            Err(end) => return Err(end),
        }
    }
    Ok(())
}

/// The verdict from the answers for all legs.
fn verdict_over<P: LegProver>(
    alloc: Global,
    typed: &Typed,
    method: u32,
    legs: &Legs,
    prover: &mut P,
) -> Result<Verdict, CloseEnd>
    requires current { IsCurrent (P.work prover.old) }
    requires legs { AreLegs typed.now method legs.now }
    requires well_formed { AllByRecursion (λ leg. IsWellFormedLeg (leg_tree leg)) legs.now.legs }
    ensures verdict { IfOk result (λ v. plain_verdict v
        ≡ verdict P.reason (accepting_by P.closes) (program_of typed.now) (method_of typed.now method)) }
    ensures leaves { Leaves (P.work prover.old) (P.work prover.new) (stop_of result) }
{
    let mut answers = Items::new(alloc);
    match add_answers(alloc, legs.legs.as_slice(), prover, &mut answers) {
        Ok(()) => Ok(method_verdict(legs, answers.as_slice())),
        Err(end) => Err(end),
    }
}

/// The verdict on the method of that number: the first of its legs that is not proved, at the node beside its item.
pub fn method_answer<P: LegProver>(
    alloc: Global,
    typed: &Typed,
    method: u32,
    prover: &mut P,
) -> Result<Verdict, CloseEnd>
    requires current { IsCurrent (P.work prover.old) }
    requires method { method < length typed.now.methods }
    ensures verdict { IfOk result (λ v. plain_verdict v
        ≡ verdict P.reason (accepting_by P.closes) (program_of typed.now) (method_of typed.now method)) }
    ensures leaves { Leaves (P.work prover.old) (P.work prover.new) (stop_of result) }
{
    match legs_of(alloc, typed, method) {
        Ok(legs) => verdict_over(alloc, typed, method, &legs, prover),
        Err(end) => match end {
            LegsEnd::Many { .. } => Ok(Verdict::ManyLegs),
            LegsEnd::NoMemory => Err(CloseEnd::NoMemory),
        },
    }
}
