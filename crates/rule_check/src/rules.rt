ghost use Rattle.std.specs.Prelude.{◌≡◌, map, ◌&&◌};
ghost use Rattle.std.specs.List.{list_any, list_all};
ghost use Rattle.slang_values.specs.Tree.{name};
ghost use Rattle.term_trees.specs.Term.{tree};
ghost use Rattle.deduction_rules.specs.Replacement.{same_tree, replaced};
ghost use Rattle.deduction_rules.specs.Rules as rule;
ghost use Rattle.deduction_rules.specs.Rules.{instance};
ghost use Rattle.slang_values.specs.declared.operators.Binary.{Binary};
ghost use Rattle.rule_check.specs.Cited.{cited_tree, is_claim};

use crate::changed::{is_instance, is_replaced};
use crate::cited::{
    Cited, claim_and_blocks, claim_and_let, one_block, one_claim, one_let, two_claims,
};
use crate::forms::{
    for_all, for_some, has_left, has_right, in_range, is_false, joined, joins, negates, same,
};
use slang_values::Binary;
use term_trees::Term;

#[tactic(auto, using(crate::proofs::RuleLines::and_i_lines))]
fn and_i(cited: &[Cited<'_>], claim: &Term) -> bool
    ensures { result ≡ rule.and_i (map cited_tree cited.now) (tree claim.now) }
{
    match two_claims(cited) {
        Some((a, b)) => joins(Binary::And, claim, a, b),
        None => false,
    }
}

#[tactic(auto, using(crate::proofs::RuleLines::and_e1_lines))]
fn and_e1(cited: &[Cited<'_>], claim: &Term) -> bool
    ensures { result ≡ rule.and_e1 (map cited_tree cited.now) (tree claim.now) }
{
    match one_claim(cited) {
        Some(t) => has_left(Binary::And, t, claim),
        None => false,
    }
}

#[tactic(auto, using(crate::proofs::RuleLines::and_e2_lines))]
fn and_e2(cited: &[Cited<'_>], claim: &Term) -> bool
    ensures { result ≡ rule.and_e2 (map cited_tree cited.now) (tree claim.now) }
{
    match one_claim(cited) {
        Some(t) => has_right(Binary::And, t, claim),
        None => false,
    }
}

#[tactic(auto, using(crate::proofs::RuleLines::or_i1_lines))]
fn or_i1(cited: &[Cited<'_>], claim: &Term) -> bool
    ensures { result ≡ rule.or_i1 (map cited_tree cited.now) (tree claim.now) }
{
    match one_claim(cited) {
        Some(a) => has_left(Binary::Or, claim, a),
        None => false,
    }
}

#[tactic(auto, using(crate::proofs::RuleLines::or_i2_lines))]
fn or_i2(cited: &[Cited<'_>], claim: &Term) -> bool
    ensures { result ≡ rule.or_i2 (map cited_tree cited.now) (tree claim.now) }
{
    match one_claim(cited) {
        Some(b) => has_right(Binary::Or, claim, b),
        None => false,
    }
}

#[tactic(auto, using(crate::proofs::RuleLines::or_e_lines))]
fn or_e(cited: &[Cited<'_>], claim: &Term) -> bool
    ensures { result ≡ rule.or_e (map cited_tree cited.now) (tree claim.now) }
{
    match claim_and_blocks(cited) {
        Some((t, a, x, b, y)) => joins(Binary::Or, t, a, b) && same(x, claim) && same(y, claim),
        None => false,
    }
}

#[tactic(auto, using(crate::proofs::RuleLines::imply_i_lines))]
fn imply_i(cited: &[Cited<'_>], claim: &Term) -> bool
    ensures { result ≡ rule.imply_i (map cited_tree cited.now) (tree claim.now) }
{
    match one_block(cited) {
        Some((a, b)) => joins(Binary::Imply, claim, a, b),
        None => false,
    }
}

#[tactic(auto, using(crate::proofs::RuleLines::imply_e_lines))]
fn imply_e(cited: &[Cited<'_>], claim: &Term) -> bool
    ensures { result ≡ rule.imply_e (map cited_tree cited.now) (tree claim.now) }
{
    match two_claims(cited) {
        Some((t, a)) => joins(Binary::Imply, t, a, claim),
        None => false,
    }
}

#[tactic(auto, using(crate::proofs::RuleLines::neg_i_lines))]
fn neg_i(cited: &[Cited<'_>], claim: &Term) -> bool
    ensures { result ≡ rule.neg_i (map cited_tree cited.now) (tree claim.now) }
{
    match one_block(cited) {
        Some((a, f)) => is_false(f) && negates(claim, a),
        None => false,
    }
}

#[tactic(auto, using(crate::proofs::RuleLines::neg_e_lines))]
fn neg_e(cited: &[Cited<'_>], claim: &Term) -> bool
    ensures { result ≡ rule.neg_e (map cited_tree cited.now) (tree claim.now) }
{
    match two_claims(cited) {
        Some((a, t)) => negates(t, a) && is_false(claim),
        None => false,
    }
}

#[tactic(auto, using(crate::proofs::RuleLines::bottom_e_lines))]
fn bottom_e(cited: &[Cited<'_>], claim: &Term) -> bool
    ensures { result ≡ rule.bottom_e (map cited_tree cited.now) (tree claim.now) }
{
    match one_claim(cited) {
        Some(f) => is_false(f),
        None => false,
    }
}

#[tactic(auto, using(crate::proofs::RuleLines::pbc_lines))]
fn pbc(cited: &[Cited<'_>], claim: &Term) -> bool
    ensures { result ≡ rule.pbc (map cited_tree cited.now) (tree claim.now) }
{
    match one_block(cited) {
        Some((t, f)) => negates(t, claim) && is_false(f),
        None => false,
    }
}

#[tactic(auto, using(crate::proofs::RuleLines::all_i_lines))]
fn all_i(cited: &[Cited<'_>], claim: &Term) -> bool
    ensures { result ≡ rule.all_i (map cited_tree cited.now) (tree claim.now) }
{
    match one_let(cited) {
        Some((k, given, p)) => is_generalized(claim, k, given, p),
        None => false,
    }
}

#[tactic(auto, using(crate::proofs::RuleLines::all_e_lines))]
fn all_e(cited: &[Cited<'_>], claim: &Term) -> bool
    ensures { result ≡ rule.all_e (map cited_tree cited.now) (tree claim.now) }
{
    match two_claims(cited) {
        Some((all, range)) => is_specialized(all, range, claim),
        None => false,
    }
}

#[tactic(auto, using(crate::proofs::RuleLines::exists_i_lines))]
fn exists_i(cited: &[Cited<'_>], claim: &Term) -> bool
    ensures { result ≡ rule.exists_i (map cited_tree cited.now) (tree claim.now) }
{
    match two_claims(cited) {
        Some((range, p)) => is_witnessed(claim, range, p),
        None => false,
    }
}

#[tactic(auto, using(crate::proofs::RuleLines::exists_e_lines))]
fn exists_e(cited: &[Cited<'_>], claim: &Term) -> bool
    ensures { result ≡ rule.exists_e (map cited_tree cited.now) (tree claim.now) }
{
    match claim_and_let(cited) {
        Some((some, k, given, shown)) => is_opened(some, k, given) && same(shown, claim),
        None => false,
    }
}

#[tactic(auto, using(crate::proofs::RuleLines::subst_left_lines))]
fn subst_left(cited: &[Cited<'_>], claim: &Term) -> bool
    ensures { result ≡ rule.subst_left (map cited_tree cited.now) (tree claim.now) }
{
    match two_claims(cited) {
        Some((t, a)) => is_substituted_left(t, a, claim),
        None => false,
    }
}

#[tactic(auto, using(crate::proofs::RuleLines::subst_right_lines))]
fn subst_right(cited: &[Cited<'_>], claim: &Term) -> bool
    ensures { result ≡ rule.subst_right (map cited_tree cited.now) (tree claim.now) }
{
    match two_claims(cited) {
        Some((t, a)) => is_substituted_right(t, a, claim),
        None => false,
    }
}

/// From `low <= k & k < high` to P(k), for all numbers in the range.
#[tactic(auto, using(term_trees::proofs::Trees::leaf_lines))]
fn is_generalized(claim: &Term, symbol: u32, given: &Term, shown: &Term) -> bool
    ensures { result ≡ rule.is_all
        (λ low high body. rule.is_in_range low high (same_tree (name symbol)) (tree given.now) && same_tree (instance body (name symbol)) (tree shown.now))
        (tree claim.now) }
{
    match for_all(claim) {
        Some((low, high, body)) => {
            is_range_of(given, low, high, symbol) && is_instance(body, &Term::Symbol(symbol), shown)
        }
        None => false,
    }
}

/// Whether the term is `low <= k & k < high` for the symbol k.
fn is_range_of(term: &Term, low: &Term, high: &Term, symbol: u32) -> bool
    ensures { result ≡ rule.is_in_range (tree low.now) (tree high.now) (same_tree (name symbol)) (tree term.now) }
{
    match in_range(term, low, high) {
        Some(t) => same(&Term::Symbol(symbol), t),
        None => false,
    }
}

/// From all numbers in a range to one.
fn is_specialized(all: &Term, range: &Term, claim: &Term) -> bool
    ensures { result ≡ rule.is_all
        (λ low high body. rule.is_in_range low high (λ t. same_tree (instance body t) (tree claim.now)) (tree range.now)) (tree all.now) }
{
    match for_all(all) {
        Some((low, high, body)) => is_instance_in(range, low, high, body, claim),
        None => false,
    }
}

/// From one number in a range to some.
fn is_witnessed(claim: &Term, range: &Term, shown: &Term) -> bool
    ensures { result ≡ rule.is_exists
        (λ low high body. rule.is_in_range low high (λ t. same_tree (instance body t) (tree shown.now)) (tree range.now)) (tree claim.now) }
{
    match for_some(claim) {
        Some((low, high, body)) => is_instance_in(range, low, high, body, shown),
        None => false,
    }
}

/// Whether the range is `low <= t & t < high`, and the claim is the body at t.
fn is_instance_in(range: &Term, low: &Term, high: &Term, body: &Term, claim: &Term) -> bool
    ensures { result ≡ rule.is_in_range (tree low.now) (tree high.now) (λ t. same_tree (instance (tree body.now) t) (tree claim.now)) (tree range.now) }
{
    match in_range(range, low, high) {
        Some(t) => is_instance(body, t, claim),
        None => false,
    }
}

/// From some number in a range to one that is named.
fn is_opened(some: &Term, symbol: u32, given: &Term) -> bool
    ensures { result ≡ rule.is_exists
        (λ low high body. rule.is_joined Binary.And
        (λ range p. rule.is_in_range low high (same_tree (name symbol)) range && same_tree (instance body (name symbol)) p) (tree given.now))
        (tree some.now) }
{
    match for_some(some) {
        Some((low, high, body)) => is_named(given, low, high, body, symbol),
        None => false,
    }
}

/// Whether the term is `(low <= k & k < high) & P(k)` for the symbol k.
#[tactic(auto, using(term_trees::proofs::Trees::leaf_lines))]
fn is_named(term: &Term, low: &Term, high: &Term, body: &Term, symbol: u32) -> bool
    ensures { result ≡ rule.is_joined Binary.And
        (λ range p. rule.is_in_range (tree low.now) (tree high.now) (same_tree (name symbol)) range && same_tree (instance (tree body.now) (name symbol)) p)
        (tree term.now) }
{
    match joined(Binary::And, term) {
        Some((range, p)) => {
            is_range_of(range, low, high, symbol) && is_instance(body, &Term::Symbol(symbol), p)
        }
        None => false,
    }
}

/// By `l == r`, with l in place of r.
fn is_substituted_left(equation: &Term, term: &Term, claim: &Term) -> bool
    ensures { result ≡ rule.is_joined Binary.Eq (λ l r. same_tree (replaced r l (tree term.now)) (tree claim.now)) (tree equation.now) }
{
    match joined(Binary::Eq, equation) {
        Some((l, r)) => is_replaced(term, r, l, claim),
        None => false,
    }
}

/// By `l == r`, with r in place of l.
fn is_substituted_right(equation: &Term, term: &Term, claim: &Term) -> bool
    ensures { result ≡ rule.is_joined Binary.Eq (λ l r. same_tree (replaced l r (tree term.now)) (tree claim.now)) (tree equation.now) }
{
    match joined(Binary::Eq, equation) {
        Some((l, r)) => is_replaced(term, l, r, claim),
        None => false,
    }
}

/// Whether the claim has the form that the rule of that number gives it, from what is cited. The facts are those before the block.
pub fn fits(facts: &[Term], number: u8, cited: &[Cited<'_>], claim: &Term) -> bool
    ensures { result ≡ rule.fits_number (map tree facts.now) number (map cited_tree cited.now) (tree claim.now) }
{
    match number {
        0 => premise(facts, cited, claim),
        1 => and_i(cited, claim),
        2 => and_e1(cited, claim),
        3 => and_e2(cited, claim),
        4 => or_i1(cited, claim),
        5 => or_i2(cited, claim),
        6 => or_e(cited, claim),
        7 => imply_i(cited, claim),
        8 => imply_e(cited, claim),
        9 => neg_i(cited, claim),
        10 => neg_e(cited, claim),
        11 => bottom_e(cited, claim),
        12 => pbc(cited, claim),
        13 => all_i(cited, claim),
        14 => all_e(cited, claim),
        15 => exists_i(cited, claim),
        16 => exists_e(cited, claim),
        17 => algebra(cited),
        18 => cited.is_empty(),
        19 => subst_left(cited, claim),
        20 => subst_right(cited, claim),
        _ => false,
    }
}

fn premise(facts: &[Term], cited: &[Cited<'_>], claim: &Term) -> bool
    ensures { result ≡ rule.premise (map tree facts.now) (map cited_tree cited.now) (tree claim.now) }
{
    cited.is_empty() && is_among(claim, facts)
}

#[tactic(auto, using(crate::proofs::ListLines::list_lines))]
fn is_among(claim: &Term, facts: &[Term]) -> bool
    ensures { result ≡ list_any (same_tree (tree claim.now)) (map tree facts.now) }
{
    is_one_of(claim, facts)
}

fn is_one_of(claim: &Term, facts: &[Term]) -> bool
    ensures { result ≡ list_any (λ f. same_tree (tree claim.now) (tree f)) facts.now }
{
    facts.iter().any(|fact| same(claim, fact))
}

#[tactic(auto, using(crate::proofs::ListLines::list_lines))]
fn algebra(cited: &[Cited<'_>]) -> bool
    ensures { result ≡ rule.algebra (map cited_tree cited.now) }
{
    are_claims(cited)
}

fn are_claims(cited: &[Cited<'_>]) -> bool
    ensures { result ≡ list_all (λ x. is_claim (cited_tree x)) cited.now }
{
    cited.iter().all(|one| is_claim(*one))
}

fn is_claim(cited: Cited<'_>) -> bool
    ensures { result ≡ is_claim (cited_tree cited.entry) }
{
    match cited {
        Cited::Claim(_) => true,
        Cited::Block(_, _, _) => false,
    }
}
