ghost use Rattle.std.specs.Prelude.{◌≡◌, [], ◌∷◌, ◌++◌, map, Bool, slice_get, IfOk, OnOk};
ghost use Rattle.std.specs.List.{All};
ghost use Rattle.validity.specs.Validity.{IsWellSorted};
ghost use Rattle.term_trees.specs.Term.{tree};
ghost use Rattle.rule_check.specs.Cited.{cited_tree};
ghost use Rattle.deduction_rules.specs.Rules.{rules};
ghost use Rattle.deduction_rules.specs.Deduction.{claims_of, visible_claims, sequent_of, is_closed_by};
ghost use Rattle.proof_closing.specs.Prover.{plain_sequent, IsAnswer, IsCurrent, Leaves, stop_of};
ghost use Rattle.proof_scopes.specs.Scope.{labelled_tree, IsClaimOver};

use crate::prover::{CloseEnd, Closing, Prover};
use lk_terms::{NoMemory, Sequent, Sort, Term, copy};
use owned_results::{all_three, both};
use proof_scopes::Labelled;
use rule_check::Cited;
use sqlite_items::Items;
use std::alloc::Global;

/// The number of the rule by which a claim is closed from those that are cited.
const ALGEBRA: u8 = 17;

/// The number of the rule by which a claim is closed from the facts and all that is visible.
const AUTO: u8 = 18;

fn copy_sorts(alloc: Global, sorts: &[Sort]) -> Result<Items<Sort>, NoMemory>
    ensures { IfOk result (λ copies. copies ≡ sorts.now) }
{
    let mut copies = Items::new(alloc);
    for sort in sorts {
        copies.push(sort.copy(alloc)?)?;
    }
    Ok(copies)
}

fn copy_records(alloc: Global, records: &[Items<Sort>]) -> Result<Items<Items<Sort>>, NoMemory>
    ensures { IfOk result (λ copies. copies ≡ records.now) }
{
    let mut copies = Items::new(alloc);
    for fields in records {
        copies.push(copy_sorts(alloc, fields.as_slice())?)?;
    }
    Ok(copies)
}

/// Adds a copy of the cited claim. Of a block nothing is added.
fn add_claim(alloc: Global, claims: &mut Items<Term>, cited: Cited<'_>) -> Result<(), NoMemory>
    ensures { OnOk result (map tree claims.new ≡ map tree claims.old ++ claims_of (cited_tree cited.entry ∷ [])) }
{
    match cited {
        Cited::Claim(claim) => claims.push(copy(alloc, claim)?),
        Cited::Block(_, _, _) => Ok(()),
    }
}

fn add_facts(alloc: Global, claims: &mut Items<Term>, facts: &[Term]) -> Result<(), NoMemory>
    ensures { OnOk result (map tree claims.new ≡ map tree claims.old ++ map tree facts.now) }
{
    for fact in facts {
        claims.push(copy(alloc, fact)?)?;
    }
    Ok(())
}

fn add_cited(alloc: Global, claims: &mut Items<Term>, cited: &[Cited<'_>]) -> Result<(), NoMemory>
    ensures { OnOk result (map tree claims.new ≡ map tree claims.old ++ claims_of (map cited_tree cited.now)) }
{
    for one in cited {
        add_claim(alloc, claims, *one)?;
    }
    Ok(())
}

fn add_visible(
    alloc: Global,
    claims: &mut Items<Term>,
    visible: &[Labelled<'_>],
) -> Result<(), NoMemory>
    ensures { OnOk result (map tree claims.new ≡ map tree claims.old ++ visible_claims (map labelled_tree visible.now)) }
{
    for one in visible {
        add_claim(alloc, claims, one.cited)?;
    }
    Ok(())
}

/// Copies of the cited claims, in order.
fn cited_claims(alloc: Global, cited: &[Cited<'_>]) -> Result<Items<Term>, NoMemory>
    ensures { IfOk result (λ claims. map tree claims ≡ claims_of (map cited_tree cited.now)) }
{
    let mut claims = Items::new(alloc);
    add_cited(alloc, &mut claims, cited)?;
    Ok(claims)
}

fn add_known(
    alloc: Global,
    claims: &mut Items<Term>,
    facts: &[Term],
    visible: &[Labelled<'_>],
) -> Result<(), NoMemory>
    ensures { OnOk result
        (map tree claims.new ≡ map tree claims.old ++ (map tree facts.now ++ visible_claims (map labelled_tree visible.now))) }
{
    add_facts(alloc, claims, facts)?;
    add_visible(alloc, claims, visible)
}

/// Copies of the facts, and then of the visible claims, in order.
pub fn known_claims(
    alloc: Global,
    facts: &[Term],
    visible: &[Labelled<'_>],
) -> Result<Items<Term>, NoMemory>
    ensures { IfOk result (λ claims. map tree claims ≡ map tree facts.now ++ visible_claims (map labelled_tree visible.now)) }
{
    let mut claims = Items::new(alloc);
    add_known(alloc, &mut claims, facts, visible)?;
    Ok(claims)
}

/// The sorts and the records of the base, and the claim.
fn frame(
    alloc: Global,
    base: &Sequent,
    claim: &Term,
) -> Result<(Items<Sort>, Items<Items<Sort>>, Term), NoMemory>
    ensures { IfOk result (λ p. (p.0 ≡ base.now.sorts) × (p.1 ≡ base.now.records) × (tree p.2 ≡ tree claim.now)) }
{
    all_three(
        copy_sorts(alloc, base.sorts.as_slice()),
        copy_records(alloc, base.records.as_slice()),
        copy(alloc, claim),
    )
}

/// The claim from the cited claims alone.
fn from_cited(
    alloc: Global,
    base: &Sequent,
    cited: &[Cited<'_>],
    claim: &Term,
) -> Result<Sequent, NoMemory>
    requires { IsWellSorted (sequent_of (plain_sequent base.now) (claims_of (map cited_tree cited.now)) (tree claim.now)) }
    ensures { IfOk result (λ s. plain_sequent s ≡ sequent_of (plain_sequent base.now) (claims_of (map cited_tree cited.now)) (tree claim.now)) }
{
    let (facts, (sorts, records, goal)) = both(
        cited_claims(alloc, cited),
        frame(alloc, base, claim),
    )?;
    Ok(Sequent {
        sorts,
        records,
        facts,
        goal,
    })
}

/// The claim from the facts of the base and the visible claims.
fn from_known(
    alloc: Global,
    base: &Sequent,
    visible: &[Labelled<'_>],
    claim: &Term,
) -> Result<Sequent, NoMemory>
    requires { IsWellSorted
        (sequent_of (plain_sequent base.now) (map tree base.now.facts ++ visible_claims (map labelled_tree visible.now)) (tree claim.now)) }
    ensures { IfOk result (λ s. plain_sequent s
        ≡ sequent_of (plain_sequent base.now) (map tree base.now.facts ++ visible_claims (map labelled_tree visible.now)) (tree claim.now)) }
{
    let (facts, (sorts, records, goal)) = both(
        known_claims(alloc, base.facts.as_slice(), visible),
        frame(alloc, base, claim),
    )?;
    Ok(Sequent {
        sorts,
        records,
        facts,
        goal,
    })
}

/// Whether the prover closes the sequent.
fn closes<P: Prover>(alloc: Global, sequent: &Sequent, prover: &mut P) -> Result<bool, CloseEnd>
    requires { IsCurrent (P.work prover.old) }
    ensures answer { IfOk result (λ answer. answer ≡ P.closes (plain_sequent sequent.now)) }
    ensures leaves { Leaves (P.work prover.old) (P.work prover.new) (stop_of result) }
{
    match prover.close(alloc, sequent) {
        Ok(answer) => Ok(is_yes(answer)),
        Err(end) => Err(end),
    }
}

fn is_yes(answer: Closing) -> bool
    ensures { (closed : Bool) → IsAnswer answer closed → result ≡ closed }
{
    match answer {
        Closing::Yes => true,
        Closing::No => false,
    }
}

fn is_closed_from_cited<P: Prover>(
    alloc: Global,
    base: &Sequent,
    cited: &[Cited<'_>],
    claim: &Term,
    prover: &mut P,
) -> Result<bool, CloseEnd>
    requires current { IsCurrent (P.work prover.old) }
    requires sorted { IsWellSorted (sequent_of (plain_sequent base.now) (claims_of (map cited_tree cited.now)) (tree claim.now)) }
    ensures answer { IfOk result (λ answer. answer
        ≡ P.closes (sequent_of (plain_sequent base.now) (claims_of (map cited_tree cited.now)) (tree claim.now))) }
    ensures leaves { Leaves (P.work prover.old) (P.work prover.new) (stop_of result) }
{
    match from_cited(alloc, base, cited, claim) {
        Ok(sequent) => closes(alloc, &sequent, prover),
        Err(_) => Err(CloseEnd::NoMemory),
    }
}

fn is_closed_from_known<P: Prover>(
    alloc: Global,
    base: &Sequent,
    visible: &[Labelled<'_>],
    claim: &Term,
    prover: &mut P,
) -> Result<bool, CloseEnd>
    requires current { IsCurrent (P.work prover.old) }
    requires sorted { IsWellSorted
        (sequent_of (plain_sequent base.now) (map tree base.now.facts ++ visible_claims (map labelled_tree visible.now)) (tree claim.now)) }
    ensures answer { IfOk result (λ answer. answer
        ≡ P.closes (sequent_of (plain_sequent base.now) (map tree base.now.facts ++ visible_claims (map labelled_tree visible.now)) (tree claim.now))) }
    ensures leaves { Leaves (P.work prover.old) (P.work prover.new) (stop_of result) }
{
    match from_known(alloc, base, visible, claim) {
        Ok(sequent) => closes(alloc, &sequent, prover),
        Err(_) => Err(CloseEnd::NoMemory),
    }
}

/// Whether the claim is closed, where the rule wants that.
pub fn is_closed<P: Prover>(
    alloc: Global,
    base: &Sequent,
    visible: &[Labelled<'_>],
    rule: u8,
    cited: &[Cited<'_>],
    claim: &Term,
    prover: &mut P,
) -> Result<bool, CloseEnd>
    requires current { IsCurrent (P.work prover.old) }
    requires claim { IsClaimOver (plain_sequent base.now) (tree claim.now) }
    requires cited { All (IsClaimOver (plain_sequent base.now)) (claims_of (map cited_tree cited.now)) }
    requires visible { All (IsClaimOver (plain_sequent base.now)) (visible_claims (map labelled_tree visible.now)) }
    ensures answer { IfOk result (λ answer. answer ≡ is_closed_by P.closes (plain_sequent base.now)
        (map labelled_tree visible.now) (slice_get rules rule) (map cited_tree cited.now) (tree claim.now)) }
    ensures leaves { Leaves (P.work prover.old) (P.work prover.new) (stop_of result) }
{
    if rule == ALGEBRA {
        is_closed_from_cited(alloc, base, cited, claim, prover)
    } else if rule == AUTO {
        is_closed_from_known(alloc, base, visible, claim, prover)
    } else {
        Ok(true)
    }
}
