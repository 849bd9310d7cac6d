ghost use Rattle.std.specs.Prelude.{◌≡◌, [], map, None, Some, if◌then◌else◌, IfOk, IfErr, OnOk};
ghost use Rattle.term_trees.specs.Term.{tree};
ghost use Rattle.rule_check.specs.Cited.{cited_tree};
ghost use Rattle.deduction_rules.specs.Deduction.{found, citing, NotClosed, passed, after_step};
ghost use Rattle.proof_closing.specs.Prover.{plain_sequent, IsCurrent, Leaves, stop_of};
ghost use Rattle.deduction.specs.End.{refusal_in, EndsSteps, stop_of_proof};
ghost use Rattle.proof_scopes.specs.Scope.{before_of, IsClaimOver, AreClaims};
ghost use Rattle.deduction.specs.Checking.{line_tree, refusal_of_line};

use crate::end::{BadStep, ProofEnd, proof_end};
use lk_terms::{Sequent, Term};
use proof_closing::{CloseEnd, Prover, is_closed};
use proof_scopes::{Scope, cite, mentions};
use rule_check::{Cited, fits};
use std::alloc::Global;

/// A claim by a rule, which is named by its number, from what the labels stand for.
#[derive(Clone, Copy)]
pub struct Line<'a> {
    pub claim: &'a Term,
    pub rule: u8,
    pub cites: &'a [u32],
}

/// Why the line is refused, where it is, from what it cites.
fn refusal_over<P: Prover>(
    alloc: Global,
    base: &Sequent,
    scope: &Scope<'_>,
    line: Line<'_>,
    cited: &[Cited<'_>],
    prover: &mut P,
) -> Result<Option<BadStep>, CloseEnd>
    requires cited { citing (before_of scope.now).visible line.cites.now ≡ found (map cited_tree cited.now) }
    requires current { IsCurrent (P.work prover.old) }
    requires claim { IsClaimOver (plain_sequent base.now) (tree line.claim.now) }
    requires visible { AreClaims (plain_sequent base.now) (before_of scope.now) }
    ensures refusal { IfOk result (λ bad.
        refusal_in bad ≡ refusal_of_line P.closes (plain_sequent base.now) (before_of scope.now) line.entry) }
    ensures leaves { Leaves (P.work prover.old) (P.work prover.new) (stop_of result) }
{
    if !fits(base.facts.as_slice(), line.rule, cited, line.claim) {
        return Ok(Some(BadStep::Shape));
    }
    if mentions(line.claim, &scope.ended) {
        return Ok(Some(BadStep::Symbol));
    }
    match is_closed(
        alloc,
        base,
        &scope.visible,
        line.rule,
        cited,
        line.claim,
        prover,
    ) {
        Ok(closed) => Ok(unless_closed(closed)),
        Err(end) => Err(end),
    }
}

fn unless_closed(closed: bool) -> Option<BadStep>
    ensures { refusal_in result ≡ (if closed then None else Some NotClosed) }
{
    if closed {
        None
    } else {
        Some(BadStep::NotClosed)
    }
}

/// Why the line is refused, where it is. What it cites is gathered.
fn refusal_from<'a, P: Prover>(
    alloc: Global,
    base: &Sequent,
    scope: &Scope<'a>,
    line: Line<'_>,
    cited: &mut Vec<Cited<'a>>,
    prover: &mut P,
) -> Result<Option<BadStep>, CloseEnd>
    requires nothing_cited { cited.old.items ≡ [] }
    requires current { IsCurrent (P.work prover.old) }
    requires claim { IsClaimOver (plain_sequent base.now) (tree line.claim.now) }
    requires visible { AreClaims (plain_sequent base.now) (before_of scope.now) }
    ensures refusal { IfOk result (λ bad.
        refusal_in bad ≡ refusal_of_line P.closes (plain_sequent base.now) (before_of scope.now) line.entry) }
    ensures leaves { Leaves (P.work prover.old) (P.work prover.new) (stop_of result) }
{
    match cite(&scope.visible, line.cites, cited) {
        Err(_) => Err(CloseEnd::NoMemory),
        Ok(missing) => match missing {
            Some(label) => Ok(Some(BadStep::Cite(label))),
            None => refusal_over(alloc, base, scope, line, cited.as_slice(), prover),
        },
    }
}

/// Why the line is refused, where it is.
fn refusal<P: Prover>(
    alloc: Global,
    base: &Sequent,
    scope: &Scope<'_>,
    line: Line<'_>,
    prover: &mut P,
) -> Result<Option<BadStep>, CloseEnd>
    requires current { IsCurrent (P.work prover.old) }
    requires claim { IsClaimOver (plain_sequent base.now) (tree line.claim.now) }
    requires visible { AreClaims (plain_sequent base.now) (before_of scope.now) }
    ensures refusal { IfOk result (λ bad.
        refusal_in bad ≡ refusal_of_line P.closes (plain_sequent base.now) (before_of scope.now) line.entry) }
    ensures leaves { Leaves (P.work prover.old) (P.work prover.new) (stop_of result) }
{
    let mut cited = Vec::new(alloc);
    refusal_from(alloc, base, scope, line, &mut cited, prover)
}

/// Takes the claim in, where the line is not refused.
pub fn check_line<'a, P: Prover>(
    alloc: Global,
    base: &Sequent,
    scope: &mut Scope<'a>,
    label: u32,
    line: Line<'a>,
    prover: &mut P,
) -> Result<(), ProofEnd>
    requires current { IsCurrent (P.work prover.old) }
    requires claim { IsClaimOver (plain_sequent base.now) (tree line.claim.now) }
    requires visible { AreClaims (plain_sequent base.now) (before_of scope.old) }
    ensures passed { OnOk result
        (after_step P.closes (plain_sequent base.now) (before_of scope.old) (line_tree label line.entry)
        ≡ passed (before_of scope.new)) }
    ensures refused { IfErr result (λ end. EndsSteps end
        (after_step P.closes (plain_sequent base.now) (before_of scope.old) (line_tree label line.entry))) }
    ensures leaves { Leaves (P.work prover.old) (P.work prover.new) (stop_of_proof result) }
{
    match refusal(alloc, base, scope, line, prover) {
        Err(end) => Err(proof_end(end)),
        Ok(bad) => match bad {
            Some(reason) => Err(ProofEnd::Bad {
                step: label,
                reason,
            }),
            None => match scope.add_claim(label, line.claim) {
                Ok(()) => Ok(()),
                Err(_) => Err(ProofEnd::NoMemory),
            },
        },
    }
}
