//! The tables of cases, run one after the other.

ghost use Rattle.std.specs.Prelude.{OnOk};
ghost use Rattle.proof_closing.specs.Prover.{plain_sequent};
ghost use Rattle.deduction.specs.Steps.{step_trees};
ghost use Rattle.deduction.specs.Checking.{AreSortedOver};
ghost use Rattle.deduction_tests.specs.Claims.{AreTestSteps};

use crate::claims::{Claim, NO, P, P_AND_Q, Q, claim};
use crate::provers::FactProver;
use crate::rules::{AND_E1, AND_E2, AUTO, BLOCKS, CLOSED, Case, FACTS, JOINING, PLACES, PREMISE};
use crate::steps::{Line, Row, add_line, add_steps, base};
use crate::whole::{PROOFS, Proof};
use deduction::{BadStep, ProofEnd, check_proof};
use lk_terms::{NoMemory, Sequent, StepTerm, Term, compare};
use sqlite_items::Items;
use std::alloc::Global;
use std::test::Fail;

/// The label of the step that a case is about.
const LAST: u32 = 900;

/// How the steps end, with a prover that is told that number.
fn end_over(alloc: Global, base: &Sequent, steps: &[StepTerm], next: u64) -> Option<ProofEnd>
    requires { AreSortedOver (plain_sequent base.now) (step_trees steps.now) }
{
    let mut prover = FactProver {
        mine: 1,
        told: 0,
        next,
    };
    check_proof(alloc, base, steps, &mut prover).err()
}

/// The same over these facts.
fn end_of(
    alloc: Global,
    facts: &[Claim],
    steps: &[StepTerm],
    next: u64,
) -> Result<Option<ProofEnd>, Fail>
    requires { AreTestSteps (step_trees steps.now) }
{
    let base = base(alloc, facts)?;
    Ok(end_over(alloc, &base, steps, next))
}

fn due(step: u32, reason: Option<BadStep>) -> Option<ProofEnd> {
    match reason {
        None => None,
        Some(reason) => Some(ProofEnd::Bad { step, reason }),
    }
}

// ---- one step after facts and blocks

/// A step for each fact, with the number of its claim as label.
fn add_premises(alloc: Global, steps: &mut Items<StepTerm>) -> Result<(), NoMemory>
    requires { AreTestSteps (step_trees steps.old) }
    ensures { OnOk result (AreTestSteps (step_trees steps.new)) }
{
    for number in &FACTS {
        add_line(alloc, steps, Line(*number, *number, PREMISE, &[]))?;
    }
    Ok(())
}

fn add_case(
    alloc: Global,
    steps: &mut Items<StepTerm>,
    blocks: &[Row],
    last: Line,
) -> Result<(), NoMemory>
    requires { AreTestSteps (step_trees steps.old) }
    ensures { OnOk result (AreTestSteps (step_trees steps.new)) }
{
    add_premises(alloc, steps)?;
    add_steps(alloc, steps, blocks)?;
    add_line(alloc, steps, last)
}

fn end_of_case(alloc: Global, blocks: &[Row], last: Line) -> Result<Option<ProofEnd>, Fail> {
    let mut steps = Items::new(alloc);
    add_case(alloc, &mut steps, blocks, last)?;
    end_of(alloc, &FACTS, steps.as_slice(), 0)
}

/// The first case that does not end as it should.
fn first_wrong(alloc: Global, cases: &[Case]) -> Result<Option<usize>, Fail> {
    for (row, case) in cases.iter().enumerate() {
        let Case(blocks, claim, rule, cites, reason) = *case;
        if end_of_case(alloc, blocks, Line(LAST, claim, rule, cites))? != due(LAST, reason) {
            return Ok(Some(row));
        }
    }
    Ok(None)
}

/// The first rule that is not refused for the first label that is not visible.
fn first_uncited(alloc: Global) -> Result<Option<u8>, Fail> {
    for rule in 0..22 {
        let end = end_of_case(alloc, &[], Line(LAST, P, rule, &[P, 99, 98]))?;
        if end != due(LAST, Some(BadStep::Cite(99))) {
            return Ok(Some(rule));
        }
    }
    Ok(None)
}

#[test]
fn rules_accept_and_refuse(rt: HostRuntime) -> Result<(), Fail> {
    let joining = first_wrong(rt.alloc(), &JOINING)?;
    let blocks = first_wrong(rt.alloc(), &BLOCKS)?;
    let places = first_wrong(rt.alloc(), &PLACES)?;
    let closed = first_wrong(rt.alloc(), &CLOSED)?;
    let uncited = first_uncited(rt.alloc())?;
    assert!(rt; (joining, blocks, places, closed, uncited) == (None, None, None, None, None));
    Ok(())
}

// ---- whole proofs

fn end_of_proof(
    alloc: Global,
    facts: &[Claim],
    rows: &[Row],
    next: u64,
) -> Result<Option<ProofEnd>, Fail> {
    let mut steps = Items::new(alloc);
    add_steps(alloc, &mut steps, rows)?;
    end_of(alloc, facts, steps.as_slice(), next)
}

fn first_wrong_proof(alloc: Global) -> Result<Option<usize>, Fail> {
    for (row, proof) in PROOFS.iter().enumerate() {
        let Proof(facts, rows, bad) = *proof;
        let due = match bad {
            None => None,
            Some((step, reason)) => Some(ProofEnd::Bad { step, reason }),
        };
        if end_of_proof(alloc, facts, rows, 0)? != due {
            return Ok(Some(row));
        }
    }
    Ok(None)
}

#[test]
fn proofs_end_at_the_first_refused_step(rt: HostRuntime) -> Result<(), Fail> {
    let wrong = first_wrong_proof(rt.alloc())?;
    assert!(rt; wrong.is_none());
    Ok(())
}

// ---- what is answered else

#[test]
fn a_prover_that_is_told_of_later_work_stops(rt: HostRuntime) -> Result<(), Fail> {
    let asks = [Row::One(Line(1, P, AUTO, &[]))];
    let stopped = end_of_proof(rt.alloc(), &[P], &asks, 2)?;
    let asks_nothing = [Row::One(Line(1, P, PREMISE, &[]))];
    let accepted = end_of_proof(rt.alloc(), &[P], &asks_nothing, 2)?;
    assert!(rt; (stopped, accepted) == (Some(ProofEnd::Stopped { told: 2 }), None));
    Ok(())
}

fn is_claim(alloc: Global, term: &Term, number: Claim) -> Result<bool, NoMemory> {
    let due = claim(alloc, number)?;
    Ok(compare(term, &due).is_eq())
}

/// Whether the terms are the claims of these numbers, in order.
fn are_claims(alloc: Global, terms: &[Term], numbers: &[Claim]) -> Result<bool, NoMemory> {
    for (term, number) in terms.iter().zip(numbers) {
        if !is_claim(alloc, term, *number)? {
            return Ok(false);
        }
    }
    Ok(terms.len() == numbers.len())
}

/// Whether the steps are accepted with these claims.
fn gives(alloc: Global, base: &Sequent, steps: &[StepTerm], due: &[Claim]) -> Result<bool, NoMemory>
    requires { AreSortedOver (plain_sequent base.now) (step_trees steps.now) }
{
    let mut prover = FactProver {
        mine: 1,
        told: 0,
        next: 0,
    };
    match check_proof(alloc, base, steps, &mut prover) {
        Ok(claims) => are_claims(alloc, claims.as_slice(), due),
        Err(_) => Ok(false),
    }
}

fn gives_over(
    alloc: Global,
    facts: &[Claim],
    steps: &[StepTerm],
    due: &[Claim],
) -> Result<bool, Fail>
    requires { AreTestSteps (step_trees steps.now) }
{
    let base = base(alloc, facts)?;
    Ok(gives(alloc, &base, steps, due)?)
}

/// Whether the steps over these facts are accepted with these claims.
fn claims(alloc: Global, facts: &[Claim], rows: &[Row], due: &[Claim]) -> Result<bool, Fail> {
    let mut steps = Items::new(alloc);
    add_steps(alloc, &mut steps, rows)?;
    gives_over(alloc, facts, steps.as_slice(), due)
}

#[test]
fn the_claims_outside_blocks_are_answered(rt: HostRuntime) -> Result<(), Fail> {
    let rows = [
        Row::One(Line(1, P_AND_Q, PREMISE, &[])),
        Row::Block(2, 3, NO, &[Line(4, Q, AND_E2, &[1])]),
        Row::One(Line(5, P, AND_E1, &[1])),
    ];
    let answered = claims(rt.alloc(), &[P_AND_Q], &rows, &[P_AND_Q, P])?;
    assert!(rt; answered);
    Ok(())
}
