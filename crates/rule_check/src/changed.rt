ghost use Rattle.std.specs.Prelude.{◌≡◌, ℕ, ◌↔◌, true, ◌&&◌, ◌==◌, Option, length};
ghost use Rattle.slang_values.specs.Tree.{Tree, bound, parts};
ghost use Rattle.term_trees.specs.Term.{tree};
ghost use Rattle.lk_terms.specs.Place.{IsPlace, IsNextPlace};
ghost use Rattle.deduction_rules.specs.Replacement.{same_tree, replaced};
ghost use Rattle.deduction_rules.specs.Rules.{instance};
ghost use Rattle.rule_check.specs.Changed.{Makes, PutsIn, IsElsewhere, Descends, IsPlaceInside, is_quantified};

use crate::forms::same;
use term_trees::{Shape, Term};
use term_walks::compare_heads;

/// What is put in where, as a term is gone through.
#[derive(Clone, Copy)]
enum Change<'a> {
    /// A term in place of the bound variable at the place.
    Bound(Option<u32>, &'a Term),
    /// The second in place of each term that is the first.
    Each(&'a Term, &'a Term),
}

/// Whether the claim is the body of a quantifier with a term in place of its variable.
pub fn is_instance(body: &Term, by: &Term, claim: &Term) -> bool
    ensures { result ≡ same_tree (instance (tree body.now) (tree by.now)) (tree claim.now) }
{
    is_changed(body, Change::Bound(Some(0), by), claim)
}

/// Whether the claim is the term with `by` in place of each `old`.
pub fn is_replaced(term: &Term, old: &Term, by: &Term, claim: &Term) -> bool
    ensures { result ≡ same_tree (replaced (tree old.now) (tree by.now) (tree term.now)) (tree claim.now) }
{
    is_changed(term, Change::Each(old, by), claim)
}

/// Whether the claim is the term after the change. Nothing is built, so a claim is gone through once, however large what is put in is.
#[cycle(changed)]
fn is_changed(term: &Term, change: Change<'_>, claim: &Term) -> bool
    ensures { (f : Tree ℕ → Tree ℕ) → Makes change.entry f → result ≡ same_tree (f (tree term.now)) (tree claim.now) }
{
    match put_in(term, change) {
        Some(by) => same(by, claim),
        None => {
            if compare_heads(term, claim).is_eq() {
                are_parts_changed(term, change, claim)
            } else {
                false
            }
        }
    }
}

#[cycle(changed)]
fn are_parts_changed(term: &Term, change: Change<'_>, claim: &Term) -> bool
    requires { IsElsewhere change (tree term.now) }
    ensures { (f : Tree ℕ → Tree ℕ) → Makes change.entry f → (result ≡ true) ↔ (parts (f (tree term.now)) ≡ parts (tree claim.now)) }
{
    let count = term.part_count();
    if count != claim.part_count() {
        return false;
    }
    for place in 0..count {
        if !is_changed(
            term.part(place),
            inside(change, term, place),
            claim.part(place),
        ) {
            return false;
        }
    }
    true
}

/// What is put in place of the whole term.
fn put_in<'a>(term: &Term, change: Change<'a>) -> Option<&'a Term>
    ensures { PutsIn change.entry (tree term.now) result }
{
    match change {
        Change::Bound(place, by) => {
            if is_bound_at(term, place) {
                Some(by)
            } else {
                None
            }
        }
        Change::Each(old, by) => { if same(old, term) { Some(by) } else { None } }
    }
}

fn is_bound_at(term: &Term, place: Option<u32>) -> bool
    ensures { (n : ℕ) → IsPlace place n → (result ≡ true) ↔ (tree term.now ≡ bound n) }
{
    match term.shape() {
        Shape::Bound(n) => is_at(n, place),
        Shape::Literal(_) => false,
        Shape::Truth(_) => false,
        Shape::Symbol(_) => false,
        Shape::Unary(_, _) => false,
        Shape::Binary(_, _, _) => false,
        Shape::Update(_, _, _) => false,
        Shape::Quantified(_, _, _, _) => false,
        Shape::Sequence(_, _) => false,
        Shape::Record(_, _) => false,
    }
}

fn is_at(number: u32, place: Option<u32>) -> bool
    ensures { (n : ℕ) → IsPlace place n → (result ≡ true) ↔ (number ≡ n) }
{
    match place {
        Some(n) => n == number,
        None => false,
    }
}

/// The change inside a part of the term.
fn inside<'a>(change: Change<'a>, term: &Term, part: usize) -> Change<'a>
    ensures { IsElsewhere change.entry (tree term.now) → (f : Tree ℕ → Tree ℕ) → Makes change.entry f → Descends f (tree term.now) part result }
{
    match change {
        Change::Bound(place, by) => Change::Bound(place_inside(place, term, part), by),
        Change::Each(old, by) => Change::Each(old, by),
    }
}

fn place_inside(place: Option<u32>, term: &Term, part: usize) -> Option<u32>
    ensures { IsPlaceInside place (tree term.now) part result }
{
    if part == 2 && says_quantified(term) {
        next_place(place)
    } else {
        place
    }
}

/// The number of a bound variable inside one more quantifier, where it is one of 32 bits. No bound variable has a greater number.
fn next_place(place: Option<u32>) -> Option<u32>
    ensures { IsNextPlace place result }
{
    match place {
        Some(n) => n.checked_add(1),
        None => None,
    }
}

fn says_quantified(term: &Term) -> bool
    ensures { result ≡ is_quantified (tree term.now) }
{
    match term.shape() {
        Shape::Quantified(_, _, _, _) => true,
        Shape::Literal(_) => false,
        Shape::Truth(_) => false,
        Shape::Symbol(_) => false,
        Shape::Bound(_) => false,
        Shape::Unary(_, _) => false,
        Shape::Binary(_, _, _) => false,
        Shape::Update(_, _, _) => false,
        Shape::Sequence(_, _) => false,
        Shape::Record(_, _) => false,
    }
}
