ghost use Rattle.std.specs.Prelude.{◌≡◌, map, IfOk, IfErr, OnOk};
ghost use Rattle.std.specs.List.{All};
ghost use Rattle.validity.specs.Validity.{IsValid};
ghost use Rattle.term_trees.specs.Term.{tree};
ghost use Rattle.deduction_rules.specs.Deduction.{passed, after_step, after_steps, accepted, deduction};
ghost use Rattle.deduction_rules.specs.Laws.{ClosesValid};
ghost use Rattle.proof_closing.specs.Prover.{plain_sequent, IsCurrent, Leaves};
ghost use Rattle.deduction.specs.End.{EndsSteps, EndsProof, stop_of_proof};
ghost use Rattle.proof_scopes.specs.Scope.{before_of, AreClaims, nothing};
ghost use Rattle.deduction.specs.Steps.{step_tree, step_trees};
ghost use Rattle.deduction.specs.Checking.{IsSortedOver, AreSortedOver, block_tree};

use crate::conclusion::conclusion;
use crate::end::{BadStep, ProofEnd};
use crate::line::{Line, check_line};
use lk_terms::{Sequent, StepTerm, Term};
use proof_closing::{Prover, known_claims};
use proof_scopes::{Labelled, Scope, mentions};
use rule_check::Cited;
use sqlite_items::Items;
use std::alloc::Global;

/// What stands in front of the steps of a block.
#[derive(Clone, Copy)]
pub struct Opening<'a> {
    label: u32,
    symbol: Option<u32>,
    assumed: u32,
    given: &'a Term,
}

/// Checks the steps of a block and takes the block in.
#[cycle(check)]
fn check_block<'a, P: Prover>(
    steps: &'a [StepTerm],
    opening: Opening<'a>,
    alloc: Global,
    base: &Sequent,
    scope: &mut Scope<'a>,
    prover: &mut P,
) -> Result<(), ProofEnd>
    requires current { IsCurrent (P.work prover.old) }
    requires sorted { IsSortedOver (plain_sequent base.now) (block_tree opening steps.now) }
    requires visible { AreClaims (plain_sequent base.now) (before_of scope.old) }
    ensures passed { OnOk result
        (after_step P.closes (plain_sequent base.now) (before_of scope.old) (block_tree opening.entry steps.now)
        ≡ passed (before_of scope.new)) }
    ensures refused { IfErr result (λ end. EndsSteps end
        (after_step P.closes (plain_sequent base.now) (before_of scope.old) (block_tree opening.entry steps.now))) }
    ensures leaves { Leaves (P.work prover.old) (P.work prover.new) (stop_of_proof result) }
{
    let Opening {
        label,
        symbol,
        assumed,
        given,
    } = opening;
    if scope.is_used(symbol) {
        return Err(ProofEnd::Bad {
            step: label,
            reason: BadStep::Symbol,
        });
    }
    let outside = scope.visible.len();
    scope.begin(symbol);
    if mentions(given, &scope.ended) {
        return Err(ProofEnd::Bad {
            step: assumed,
            reason: BadStep::Symbol,
        });
    }
    match scope.add_claim(assumed, given) {
        Err(_) => Err(ProofEnd::NoMemory),
        Ok(()) => match check_steps(steps, alloc, base, scope, prover) {
            Err(end) => Err(end),
            Ok(()) => {
                let cited = Cited::Block(symbol, given, conclusion(given, steps));
                match scope.end(outside, symbol, Labelled { label, cited }) {
                    Ok(()) => Ok(()),
                    Err(_) => Err(ProofEnd::NoMemory),
                }
            }
        },
    }
}

#[cycle(check)]
#[tactic(auto, using(crate::proofs::Steps::step_lines))]
fn check_step<'a, P: Prover>(
    step: &'a StepTerm,
    alloc: Global,
    base: &Sequent,
    scope: &mut Scope<'a>,
    prover: &mut P,
) -> Result<(), ProofEnd>
    requires current { IsCurrent (P.work prover.old) }
    requires sorted { IsSortedOver (plain_sequent base.now) (step_tree step.now) }
    requires visible { AreClaims (plain_sequent base.now) (before_of scope.old) }
    ensures passed { OnOk result
        (after_step P.closes (plain_sequent base.now) (before_of scope.old) (step_tree step.now)
        ≡ passed (before_of scope.new)) }
    ensures refused { IfErr result (λ end. EndsSteps end
        (after_step P.closes (plain_sequent base.now) (before_of scope.old) (step_tree step.now))) }
    ensures leaves { Leaves (P.work prover.old) (P.work prover.new) (stop_of_proof result) }
{
    match step {
        StepTerm::Line {
            label,
            claim,
            rule,
            cites,
        } => {
            let line = Line {
                claim,
                rule: *rule,
                cites: cites.as_slice(),
            };
            check_line(alloc, base, scope, *label, line, prover)
        }
        StepTerm::Sub {
            label,
            symbol,
            assumed,
            assumption,
            steps,
        } => {
            let opening = Opening {
                label: *label,
                symbol: *symbol,
                assumed: *assumed,
                given: assumption,
            };
            check_block(steps.as_slice(), opening, alloc, base, scope, prover)
        }
    }
}

/// Checks the steps one after the other, up to the first that is refused.
#[cycle(check)]
fn check_steps<'a, P: Prover>(
    steps: &'a [StepTerm],
    alloc: Global,
    base: &Sequent,
    scope: &mut Scope<'a>,
    prover: &mut P,
) -> Result<(), ProofEnd>
    requires current { IsCurrent (P.work prover.old) }
    requires sorted { AreSortedOver (plain_sequent base.now) (step_trees steps.now) }
    requires visible { AreClaims (plain_sequent base.now) (before_of scope.old) }
    ensures passed { OnOk result
        (after_steps P.closes (plain_sequent base.now) (before_of scope.old) (step_trees steps.now)
        ≡ passed (before_of scope.new)) }
    ensures refused { IfErr result (λ end. EndsSteps end
        (after_steps P.closes (plain_sequent base.now) (before_of scope.old) (step_trees steps.now))) }
    ensures leaves { Leaves (P.work prover.old) (P.work prover.new) (stop_of_proof result) }
{
    for step in steps {
        if let Err(end) = check_step(step, alloc, base, scope, prover) {
            return Err(end);
        }
    }
    Ok(())
}

/// The claims of accepted steps, over a scope in which nothing stands.
fn claims_over<'a, P: Prover>(
    alloc: Global,
    base: &Sequent,
    steps: &'a [StepTerm],
    scope: &mut Scope<'a>,
    prover: &mut P,
) -> Result<Items<Term>, ProofEnd>
    requires empty { before_of scope.old ≡ nothing }
    requires current { IsCurrent (P.work prover.old) }
    requires sorted { AreSortedOver (plain_sequent base.now) (step_trees steps.now) }
    ensures accepted { IfOk result (λ claims.
        deduction P.closes (plain_sequent base.now) (step_trees steps.now) ≡ accepted (map tree claims)) }
    ensures refused { IfErr result (λ end.
        EndsProof end (deduction P.closes (plain_sequent base.now) (step_trees steps.now))) }
    ensures leaves { Leaves (P.work prover.old) (P.work prover.new) (stop_of_proof result) }
{
    match scope.use_facts(base.facts.as_slice()) {
        Err(_) => Err(ProofEnd::NoMemory),
        Ok(()) => match check_steps(steps, alloc, base, scope, prover) {
            Err(end) => Err(end),
            Ok(()) => match known_claims(alloc, &[], &scope.visible) {
                Ok(claims) => Ok(claims),
                Err(_) => Err(ProofEnd::NoMemory),
            },
        },
    }
}

/// Checks a proof over the facts of the base, whose goal is not looked at. Answers the claims of the outermost steps in
/// order, or the first step or assumption that is refused, with its reason. What is claimed is valid where what the prover
/// closes is.
pub fn check_proof<P: Prover>(
    alloc: Global,
    base: &Sequent,
    steps: &[StepTerm],
    prover: &mut P,
) -> Result<Items<Term>, ProofEnd>
    requires current { IsCurrent (P.work prover.old) }
    requires sorted { AreSortedOver (plain_sequent base.now) (step_trees steps.now) }
    ensures accepted { IfOk result (λ claims.
        deduction P.closes (plain_sequent base.now) (step_trees steps.now) ≡ accepted (map tree claims)) }
    ensures refused { IfErr result (λ end.
        EndsProof end (deduction P.closes (plain_sequent base.now) (step_trees steps.now))) }
    ensures valid { ClosesValid P.closes →
        IfOk result (λ claims. All (λ t. IsValid (record (plain_sequent base.now) { goal = t })) (map tree claims)) }
    ensures leaves { Leaves (P.work prover.old) (P.work prover.new) (stop_of_proof result) }
{
    let mut scope = Scope::new(alloc);
    claims_over(alloc, base, steps, &mut scope, prover)
}
