ghost use Rattle.std.specs.Prelude.{◌≡◌, IfOk, None};
ghost use Rattle.leg_forms.specs.WellFormed.{IsWellFormedLeg};
ghost use Rattle.leg_rules.specs.Answers.{leg_answer};
ghost use Rattle.lk_programs.specs.LegData.{leg_tree};
ghost use Rattle.proof_closing.specs.Prover.{IsCurrent, Leaves, stop_of};
ghost use Rattle.term_store.specs.Store.{Grows};
ghost use Rattle.sym_exec.specs.Steps.{IsReady};
ghost use Rattle.leg_answers.specs.Answering.{accepting_by, told_next, IsNextWithin, IsNextSorted, AnswersNext, AreSorted, remaining};

use crate::base::refused_over;
use crate::forms::{of_check, of_end, of_proof};
use crate::prover::LegProver;
use deduction::CloseEnd;
use lk_programs::Leg;
use program_trees::Answer;
use std::alloc::Global;
use sym_exec::{Exec, Next};
use term_store::TermStore;

/// The answer at what comes next: it is not proved, or there is nothing left.
fn settle<P: LegProver>(
    alloc: Global,
    store: &mut TermStore,
    next: Next,
    prover: &mut P,
) -> Result<Option<Answer>, CloseEnd>
    requires current { IsCurrent (P.work prover.old) }
    requires within { IsNextWithin store.old next }
    requires sorted { IsNextSorted store.old next }
    ensures told { IfOk result (λ it. it ≡ told_next P.reason P.closes store.old next) }
    ensures grows { Grows store.old store.new }
    ensures leaves { Leaves (P.work prover.old) (P.work prover.new) (stop_of result) }
{
    match next {
        Next::Check {
            item,
            kind,
            sequent,
        } => of_check(prover.unclosed(alloc, store, &sequent), item, kind),
        Next::Proof { item, base, steps } => of_proof(
            refused_over(alloc, store, &base, steps.as_slice(), prover),
            item,
        ),
        Next::Done => Ok(Some(Answer::Proved)),
    }
}

/// The answer at the next item that asks for something, where there is one: it is not proved, or there is none left.
fn next_answer<P: LegProver>(
    alloc: Global,
    leg: &Leg,
    store: &mut TermStore,
    exec: &mut Exec,
    prover: &mut P,
) -> Result<Option<Answer>, CloseEnd>
    requires current { IsCurrent (P.work prover.old) }
    requires ready { IsReady store.old exec.old leg.now }
    requires begun { exec.old.end ≡ None }
    requires sorted { AreSorted store.old exec.old leg.now }
    ensures answers { IfOk result (λ it. AnswersNext P.reason P.closes it store.old exec.old store.new exec.new leg.now) }
    ensures leaves { Leaves (P.work prover.old) (P.work prover.new) (stop_of result) }
{
    match exec.next(alloc, leg, store) {
        Ok(next) => settle(alloc, store, next, prover),
        Err(end) => of_end(end),
    }
}

/// The answer for what is left of a leg.
fn answer_on<P: LegProver>(
    alloc: Global,
    leg: &Leg,
    store: &mut TermStore,
    exec: &mut Exec,
    prover: &mut P,
) -> Result<Answer, CloseEnd>
    requires current { IsCurrent (P.work prover.old) }
    requires ready { IsReady store.old exec.old leg.now }
    requires begun { exec.old.end ≡ None }
    requires sorted { AreSorted store.old exec.old leg.now }
    ensures answer { IfOk result (λ answer. answer ≡ remaining P.reason P.closes store.old exec.old leg.now) }
    ensures leaves { Leaves (P.work prover.old) (P.work prover.new) (stop_of result) }
{
    'items: loop {
        match next_answer(alloc, leg, store, exec, prover) {
            Err(end) => return Err(end),
            Ok(it) => match it {
                Some(answer) => return Ok(answer),
                None => {}
            },
        }
    }
}

/// The answer for a leg: all its items are proved, or the first that is not, with the reason.
pub fn leg_answer<P: LegProver>(
    alloc: Global,
    leg: &Leg,
    prover: &mut P,
) -> Result<Answer, CloseEnd>
    requires current { IsCurrent (P.work prover.old) }
    requires well_formed { IsWellFormedLeg (leg_tree leg.now) }
    ensures answer { IfOk result (λ answer. answer ≡ leg_answer P.reason (accepting_by P.closes) (leg_tree leg.now)) }
    ensures leaves { Leaves (P.work prover.old) (P.work prover.new) (stop_of result) }
{
    let mut store = TermStore::new(alloc);
    match Exec::new(alloc, leg) {
        Ok(exec) => {
            let mut exec = exec;
            answer_on(alloc, leg, &mut store, &mut exec, prover)
        }
        Err(_) => Err(CloseEnd::NoMemory),
    }
}
