ghost use Rattle.std.specs.Prelude.{◌≡◌, [], IfOk, OnOk};
ghost use Rattle.slang_values.specs.Tree.{bound as bound_variable, binary, update, quantified};
ghost use Rattle.slang_values.specs.Typing.{IsClosed};
ghost use Rattle.term_trees.specs.Term.{tree, trees};
ghost use Rattle.lk_terms.specs.Substitution.{substituted, KeepsValues, Substitutes, AllSubstitute};

use crate::NoMemory;
use crate::place::next_place;
use owned_results::{all_three, both};
use slang_values::{Binary, Quantifier};
use sqlite_items::Items;
use std::alloc::Global;
use term_trees::{Shape, Term};
use term_walks::copy;

/// The term with `by` in place of a loose bound variable: of number `bound` outside quantifiers, and one more inside each.
/// Other loose bound variables stay as they are.
pub fn substitute(alloc: Global, term: &Term, bound: u32, by: &Term) -> Result<Term, NoMemory>
    requires { IsClosed 0 (tree by.now) }
    ensures tree { IfOk result (λ t. tree t ≡ substituted bound (tree by.now) (tree term.now)) }
    ensures keeps_values { IfOk result (λ t. KeepsValues bound (tree by.now) (tree term.now) (tree t)) }
{
    substitute_at(alloc, term, Some(bound), by)
}

#[cycle(substitute)]
#[tactic(auto, using(term_trees::proofs::Trees::tree_lines, crate::proofs::Substituting::substitute_lines))]
fn substitute_at(
    alloc: Global,
    term: &Term,
    place: Option<u32>,
    by: &Term,
) -> Result<Term, NoMemory>
    ensures { IfOk result (λ t. Substitutes place (tree by.now) (tree term.now) (tree t)) }
{
    match term.shape() {
        Shape::Literal(z) => Ok(Term::Lit(z)),
        Shape::Truth(b) => Ok(Term::truth(b)),
        Shape::Symbol(n) => Ok(Term::Symbol(n)),
        Shape::Bound(n) => substitute_bound(alloc, n, place, by),
        Shape::Unary(op, a) => Term::unary(alloc, op, substitute_at(alloc, a, place, by)?),
        Shape::Binary(op, a, b) => substitute_binary(alloc, a, b, place, by, op),
        Shape::Update(a, i, x) => substitute_update(alloc, a, i, x, place, by),
        Shape::Quantified(q, low, high, body) => {
            substitute_quantified(alloc, low, high, body, place, by, q)
        }
        Shape::Sequence(s, ts) => {
            let (sort, parts) = both(s.copy(alloc), substitute_all(alloc, ts, place, by))?;
            Ok(Term::SeqLit(sort, parts))
        }
        Shape::Record(n, ts) => Ok(Term::Rec(n, substitute_all(alloc, ts, place, by)?)),
    }
}

#[tactic(auto, using(term_trees::proofs::Trees::tree_lines, crate::proofs::Substituting::bound_lines))]
fn substitute_bound(
    alloc: Global,
    number: u32,
    place: Option<u32>,
    by: &Term,
) -> Result<Term, NoMemory>
    ensures { IfOk result (λ t. Substitutes place (tree by.now) (bound_variable number) (tree t)) }
{
    match place {
        Some(n) => {
            if n == number {
                copy(alloc, by)
            } else {
                Ok(Term::Bound(number))
            }
        }
        None => Ok(Term::Bound(number)),
    }
}

#[cycle(substitute)]
#[tactic(auto, using(crate::proofs::Substituting::substitute_lines))]
fn substitute_binary(
    alloc: Global,
    a: &Term,
    b: &Term,
    place: Option<u32>,
    by: &Term,
    op: Binary,
) -> Result<Term, NoMemory>
    ensures { IfOk result (λ t. Substitutes place (tree by.now) (binary op (tree a.now) (tree b.now)) (tree t)) }
{
    let (a, b) = both(
        substitute_at(alloc, a, place, by),
        substitute_at(alloc, b, place, by),
    )?;
    Term::binary(alloc, op, a, b)
}

#[cycle(substitute)]
#[tactic(auto, using(crate::proofs::Substituting::substitute_lines))]
fn substitute_update(
    alloc: Global,
    a: &Term,
    i: &Term,
    x: &Term,
    place: Option<u32>,
    by: &Term,
) -> Result<Term, NoMemory>
    ensures { IfOk result (λ t. Substitutes place (tree by.now) (update (tree a.now) (tree i.now) (tree x.now)) (tree t)) }
{
    let (a, i, x) = all_three(
        substitute_at(alloc, a, place, by),
        substitute_at(alloc, i, place, by),
        substitute_at(alloc, x, place, by),
    )?;
    Term::update(alloc, a, i, x)
}

#[cycle(substitute)]
#[tactic(auto, using(crate::proofs::Substituting::substitute_lines))]
fn substitute_quantified(
    alloc: Global,
    low: &Term,
    high: &Term,
    body: &Term,
    place: Option<u32>,
    by: &Term,
    quantifier: Quantifier,
) -> Result<Term, NoMemory>
    ensures { IfOk result
        (λ t. Substitutes place (tree by.now) (quantified quantifier (tree low.now) (tree high.now) (tree body.now)) (tree t)) }
{
    let (low, high, body) = all_three(
        substitute_at(alloc, low, place, by),
        substitute_at(alloc, high, place, by),
        substitute_at(alloc, body, next_place(place), by),
    )?;
    Term::quantified(alloc, quantifier, low, high, body)
}

#[cycle(substitute)]
#[tactic(auto, using(term_trees::proofs::Sizes::deepest_lines, crate::proofs::Substituting::substitute_lines))]
fn substitute_all(
    alloc: Global,
    terms: &[Term],
    place: Option<u32>,
    by: &Term,
) -> Result<Items<Term>, NoMemory>
    ensures { IfOk result (λ ts. AllSubstitute place (tree by.now) (trees terms.now) (trees ts)) }
{
    let mut parts = Items::new(alloc);
    add_substituted(alloc, &mut parts, terms, place, by)?;
    Ok(parts)
}

/// Adds the terms with `by` in place of the variable to none.
#[cycle(substitute)]
#[tactic(auto, using(term_trees::proofs::Sizes::deepest_lines, crate::proofs::Substituting::substitute_lines))]
fn add_substituted(
    alloc: Global,
    parts: &mut Items<Term>,
    terms: &[Term],
    place: Option<u32>,
    by: &Term,
) -> Result<(), NoMemory>
    requires { parts.old ≡ [] }
    ensures { OnOk result (AllSubstitute place (tree by.now) (trees terms.now) (trees parts.new)) }
{
    for term in terms {
        parts.push(substitute_at(alloc, term, place, by)?)?;
    }
    Ok(())
}
