ghost use Rattle.std.specs.Prelude.{◌≡◌, ◌<◌, ◌≤◌, ◌++◌, map, length, IfOk, OnOk};
ghost use Rattle.std.specs.List.{AllByRecursion};
ghost use Rattle.term_trees.specs.Term.{tree};
ghost use Rattle.term_store.specs.Store.{tree_at, AreWithin};
ghost use Rattle.stored_trees.specs.Shapes.{IsShapeAt};

use crate::{NoMemory, forms};
use sqlite_items::Items;
use std::alloc::Global;
use term_store::{NodeShape, TermStore};
use term_trees::Term;

/// The node with that number, by its operator.
fn shape_at(store: &TermStore, id: usize) -> NodeShape<'_>
    requires { id < length store.now }
    ensures { IsShapeAt store.now id result }
{
    store.view(id).shape()
}

/// The term that a number of the store stands for.
#[cycle(build)]
#[tactic(auto, using(term_trees::proofs::Trees::leaf_lines))]
pub fn term_at(alloc: Global, store: &TermStore, id: usize) -> Result<Term, NoMemory>
    requires { id < length store.now }
    ensures { IfOk result (λ t. tree t ≡ tree_at store.now id) }
{
    match shape_at(store, id) {
        NodeShape::Literal(z) => Ok(Term::Lit(z)),
        NodeShape::Truth(b) => Ok(Term::truth(b)),
        NodeShape::Symbol(n) => Ok(Term::Symbol(n)),
        NodeShape::Bound(n) => Ok(Term::Bound(n)),
        NodeShape::Unary(op, a) => forms::unary(alloc, op, term_at(alloc, store, a)),
        NodeShape::Binary(op, a, b) => {
            forms::binary(
                alloc,
                op,
                term_at(alloc, store, a),
                term_at(alloc, store, b),
            )
        }
        NodeShape::Update(a, i, x) => forms::update(
            alloc,
            term_at(alloc, store, a),
            term_at(alloc, store, i),
            term_at(alloc, store, x),
        ),
        NodeShape::Quantified(q, low, high, body) => forms::quantified(
            alloc,
            q,
            term_at(alloc, store, low),
            term_at(alloc, store, high),
            term_at(alloc, store, body),
        ),
        NodeShape::Sequence(sort, ids) => {
            forms::sequence(sort.copy(alloc), terms_below(alloc, store, ids, id))
        }
        NodeShape::Record(n, ids) => forms::record_over(n, terms_below(alloc, store, ids, id)),
    }
}

/// The terms of numbers that stand below that one.
#[cycle(build)]
fn terms_below(
    alloc: Global,
    store: &TermStore,
    ids: &[usize],
    bound: usize,
) -> Result<Items<Term>, NoMemory>
    requires below { AllByRecursion (λ k. k < bound) ids.now }
    requires within { bound ≤ length store.now }
    ensures { IfOk result (λ ts. map tree ts ≡ map (tree_at store.now) ids.now) }
{
    let mut terms = Items::new(alloc);
    add_terms(alloc, store, ids, bound, &mut terms)?;
    Ok(terms)
}

/// Adds these terms.
#[cycle(build)]
fn add_terms(
    alloc: Global,
    store: &TermStore,
    ids: &[usize],
    bound: usize,
    terms: &mut Items<Term>,
) -> Result<(), NoMemory>
    requires below { AllByRecursion (λ k. k < bound) ids.now }
    requires within { bound ≤ length store.now }
    ensures { OnOk result (map tree terms.new ≡ map tree terms.old ++ map (tree_at store.now) ids.now) }
{
    for id in ids {
        terms.push(term_at(alloc, store, *id)?)?;
    }
    Ok(())
}

/// The terms that numbers of the store stand for, in order.
pub fn terms_at(alloc: Global, store: &TermStore, ids: &[usize]) -> Result<Items<Term>, NoMemory>
    requires { AreWithin store.now ids.now }
    ensures { IfOk result (λ ts. map tree ts ≡ map (tree_at store.now) ids.now) }
{
    terms_below(alloc, store, ids, store.len())
}
