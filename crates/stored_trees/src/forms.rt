ghost use Rattle.std.specs.Prelude.{◌≡◌, IfOk, ℕ, List, map};
ghost use Rattle.slang_values.specs.Tree.{Tree, unary, binary, update, quantified, listed, sequence_of, record_of};
ghost use Rattle.term_trees.specs.Term.{sort_type, tree, trees_of};

use crate::NoMemory;
use owned_results::{all_three, both};
use slang_values::{Binary, Quantifier, Unary};
use sqlite_items::Items;
use std::alloc::Global;
use term_trees::{Sort, Term};

/// The term of an operator over one part.
pub fn unary(alloc: Global, op: Unary, a: Result<Term, NoMemory>) -> Result<Term, NoMemory>
    ensures { (s : Tree ℕ) → IfOk a (λ x. tree x ≡ s) → IfOk result (λ t. tree t ≡ unary op s) }
{
    Term::unary(alloc, op, a?)
}

/// The term of an operator over two parts.
pub fn binary(
    alloc: Global,
    op: Binary,
    a: Result<Term, NoMemory>,
    b: Result<Term, NoMemory>,
) -> Result<Term, NoMemory>
    ensures { (s u : Tree ℕ) → IfOk a (λ x. tree x ≡ s) → IfOk b (λ x. tree x ≡ u) → IfOk result (λ t. tree t ≡ binary op s u) }
{
    let (a, b) = both(a, b)?;
    Term::binary(alloc, op, a, b)
}

/// The sequence with another element at a place.
pub fn update(
    alloc: Global,
    a: Result<Term, NoMemory>,
    i: Result<Term, NoMemory>,
    x: Result<Term, NoMemory>,
) -> Result<Term, NoMemory>
    ensures { (s u v : Tree ℕ) → IfOk a (λ y. tree y ≡ s) → IfOk i (λ y. tree y ≡ u) → IfOk x (λ y. tree y ≡ v)
        → IfOk result (λ t. tree t ≡ update s u v) }
{
    let (a, i, x) = all_three(a, i, x)?;
    Term::update(alloc, a, i, x)
}

/// A quantifier over its range and its body.
pub fn quantified(
    alloc: Global,
    quantifier: Quantifier,
    low: Result<Term, NoMemory>,
    high: Result<Term, NoMemory>,
    body: Result<Term, NoMemory>,
) -> Result<Term, NoMemory>
    ensures { (s u v : Tree ℕ) → IfOk low (λ y. tree y ≡ s) → IfOk high (λ y. tree y ≡ u) → IfOk body (λ y. tree y ≡ v)
        → IfOk result (λ t. tree t ≡ quantified quantifier s u v) }
{
    let (low, high, body) = all_three(low, high, body)?;
    Term::quantified(alloc, quantifier, low, high, body)
}

/// A sequence of elements of that sort.
#[tactic(auto, using(term_trees::proofs::Trees::tree_lines))]
pub fn sequence(
    sort: Result<Sort, NoMemory>,
    parts: Result<Items<Term>, NoMemory>,
) -> Result<Term, NoMemory>
    ensures { (s : Sort) (ts : List (Tree ℕ)) → IfOk sort (λ x. x ≡ s) → IfOk parts (λ xs. map tree xs ≡ ts)
        → IfOk result (λ t. tree t ≡ listed (sequence_of (sort_type s)) (trees_of ts)) }
{
    let (sort, parts) = both(sort, parts)?;
    Ok(Term::SeqLit(sort, parts))
}

/// A record with that number.
#[tactic(auto, using(term_trees::proofs::Trees::tree_lines))]
pub fn record_over(n: u32, parts: Result<Items<Term>, NoMemory>) -> Result<Term, NoMemory>
    ensures { (ts : List (Tree ℕ)) → IfOk parts (λ xs. map tree xs ≡ ts)
        → IfOk result (λ t. tree t ≡ listed (record_of n) (trees_of ts)) }
{
    Ok(Term::Rec(n, parts?))
}
