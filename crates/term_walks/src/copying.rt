ghost use Rattle.std.specs.Prelude.{◌≡◌, ◌++◌, IfOk, OnOk, map};
ghost use Rattle.slang_values.specs.Tree.{binary, update, quantified};
ghost use Rattle.term_trees.specs.Term.{tree};

use crate::NoMemory;
use owned_results::{all_three, both};
use slang_values::{Binary, Quantifier};
use sqlite_items::Items;
use std::alloc::Global;
use term_trees::{Shape, Term};

/// The same term.
#[cycle(copy)]
#[tactic(auto, using(term_trees::proofs::Trees::tree_lines))]
pub fn copy(alloc: Global, term: &Term) -> Result<Term, NoMemory>
    ensures { IfOk result (λ t. tree t ≡ tree term.now) }
{
    match term.shape() {
        Shape::Literal(z) => Ok(Term::Lit(z)),
        Shape::Truth(b) => Ok(Term::truth(b)),
        Shape::Symbol(n) => Ok(Term::Symbol(n)),
        Shape::Bound(n) => Ok(Term::Bound(n)),
        Shape::Unary(op, a) => Term::unary(alloc, op, copy(alloc, a)?),
        Shape::Binary(op, a, b) => copy_binary(alloc, a, b, op),
        Shape::Update(a, i, x) => copy_update(alloc, a, i, x),
        Shape::Quantified(q, low, high, body) => copy_quantified(alloc, low, high, body, q),
        Shape::Sequence(s, ts) => {
            let (sort, parts) = both(s.copy(alloc), copy_all(alloc, ts))?;
            Ok(Term::SeqLit(sort, parts))
        }
        Shape::Record(n, ts) => Ok(Term::Rec(n, copy_all(alloc, ts)?)),
    }
}

#[cycle(copy)]
fn copy_binary(alloc: Global, a: &Term, b: &Term, op: Binary) -> Result<Term, NoMemory>
    ensures { IfOk result (λ t. tree t ≡ binary op (tree a.now) (tree b.now)) }
{
    let (a, b) = both(copy(alloc, a), copy(alloc, b))?;
    Term::binary(alloc, op, a, b)
}

#[cycle(copy)]
fn copy_update(alloc: Global, a: &Term, i: &Term, x: &Term) -> Result<Term, NoMemory>
    ensures { IfOk result (λ t. tree t ≡ update (tree a.now) (tree i.now) (tree x.now)) }
{
    let (a, i, x) = all_three(copy(alloc, a), copy(alloc, i), copy(alloc, x))?;
    Term::update(alloc, a, i, x)
}

#[cycle(copy)]
fn copy_quantified(
    alloc: Global,
    low: &Term,
    high: &Term,
    body: &Term,
    quantifier: Quantifier,
) -> Result<Term, NoMemory>
    ensures { IfOk result (λ t. tree t ≡ quantified quantifier (tree low.now) (tree high.now) (tree body.now)) }
{
    let (low, high, body) = all_three(copy(alloc, low), copy(alloc, high), copy(alloc, body))?;
    Term::quantified(alloc, quantifier, low, high, body)
}

#[cycle(copy)]
#[tactic(auto, using(term_trees::proofs::Sizes::deepest_lines))]
fn copy_all(alloc: Global, terms: &[Term]) -> Result<Items<Term>, NoMemory>
    ensures { IfOk result (λ ts. map tree ts ≡ map tree terms.now) }
{
    let mut copies = Items::new(alloc);
    add_copies(alloc, &mut copies, terms)?;
    Ok(copies)
}

/// Adds copies of the terms.
#[cycle(copy)]
#[tactic(auto, using(term_trees::proofs::Sizes::deepest_lines))]
fn add_copies(alloc: Global, copies: &mut Items<Term>, terms: &[Term]) -> Result<(), NoMemory>
    ensures { OnOk result (map tree copies.new ≡ map tree copies.old ++ map tree terms.now) }
{
    for term in terms {
        copies.push(copy(alloc, term)?)?;
    }
    Ok(())
}
