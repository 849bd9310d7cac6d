//! The claims of the tests, by number: over truth values p and q, numbers n and k, and a sequence a of numbers.

ghost use Rattle.std.specs.Prelude.{◌≡◌, IfOk};
ghost use Rattle.slang_values.specs.Tree.{name, binary};
ghost use Rattle.term_trees.specs.Term.{tree};
ghost use Rattle.deduction_tests.specs.Claims.{from_zero as zero_to, below as less, size, within, positive, chosen, either};
ghost use Rattle.deduction_tests.specs.Claims.{not_p as negation, next, is_next, until as over, test_claim};

use lk_terms::{NoMemory, Term};
use owned_results::both;
use slang_values::{Binary, Quantifier, Unary};
use std::alloc::Global;

/// A claim by its number.
pub type Claim = u32;

/// p
pub const P: Claim = 0;
/// q
pub const Q: Claim = 1;
/// p & q
pub const P_AND_Q: Claim = 2;
/// p | q
pub const P_OR_Q: Claim = 3;
/// p ->: q
pub const P_THEN_Q: Claim = 4;
/// !p
pub const NOT_P: Claim = 5;
/// F
pub const NO: Claim = 6;
/// 0 <= n & n < a.size
pub const N_WITHIN: Claim = 7;
/// 0 < a(n)
pub const N_POSITIVE: Claim = 8;
/// All(0 until a.size)(i => 0 < a(i))
pub const ALL: Claim = 9;
/// Exists(0 until a.size)(i => 0 < a(i))
pub const SOME: Claim = 10;
/// p == q
pub const P_IS_Q: Claim = 11;
/// n == n + 1
pub const N_IS_NEXT: Claim = 12;
/// 0 <= n
pub const N_FROM_ZERO: Claim = 13;
/// 0 <= n + 1
pub const NEXT_FROM_ZERO: Claim = 14;
/// q & p
pub const Q_AND_P: Claim = 15;
/// 0 <= k & k < a.size
pub const K_WITHIN: Claim = 16;
/// 0 < a(k)
pub const K_POSITIVE: Claim = 17;
/// (0 <= k & k < a.size) & 0 < a(k)
pub const K_CHOSEN: Claim = 18;
/// p | 0 < a(k)
pub const P_OR_K_POSITIVE: Claim = 19;
/// 0 < a(k) | p
pub const K_POSITIVE_OR_P: Claim = 20;
/// 0 <= k & k < k
pub const K_WITHIN_K: Claim = 21;
/// All(0 until k)(i => 0 < a(i))
pub const ALL_UNTIL_K: Claim = 22;

/// The number of the symbol n.
const N: u32 = 2;

/// The number of the symbol k.
const K: u32 = 3;

/// The number of the symbol a.
const A: u32 = 4;

#[tactic(auto, using(term_trees::proofs::Trees::leaf_lines))]
fn of_two(alloc: Global, op: Binary, a: u32, b: u32) -> Result<Term, NoMemory>
    ensures { IfOk result (λ t. tree t ≡ binary op (name a) (name b)) }
{
    Term::binary(alloc, op, Term::Symbol(a), Term::Symbol(b))
}

#[tactic(auto, using(term_trees::proofs::Trees::leaf_lines))]
fn not_p(alloc: Global) -> Result<Term, NoMemory>
    ensures { IfOk result (λ t. tree t ≡ negation) }
{
    Term::unary(alloc, Unary::Not, Term::Symbol(0))
}

#[tactic(auto, using(term_trees::proofs::Trees::leaf_lines))]
fn size_of_a(alloc: Global) -> Result<Term, NoMemory>
    ensures { IfOk result (λ t. tree t ≡ size) }
{
    Term::unary(alloc, Unary::Size, Term::Symbol(A))
}

/// 0 <= t
#[tactic(auto, using(term_trees::proofs::Trees::leaf_lines))]
fn from_zero(alloc: Global, t: Term) -> Result<Term, NoMemory>
    ensures { IfOk result (λ s. tree s ≡ zero_to (tree t)) }
{
    Term::binary(alloc, Binary::Le, Term::Lit(0), t)
}

/// t < high, where t is a symbol
#[tactic(auto, using(term_trees::proofs::Trees::leaf_lines))]
fn below(alloc: Global, symbol: u32, high: Term) -> Result<Term, NoMemory>
    ensures { IfOk result (λ s. tree s ≡ less (name symbol) (tree high)) }
{
    Term::binary(alloc, Binary::Lt, Term::Symbol(symbol), high)
}

/// 0 <= t & t < high, where t is a symbol
#[tactic(auto, using(term_trees::proofs::Trees::leaf_lines))]
fn within_high(alloc: Global, symbol: u32, high: Term) -> Result<Term, NoMemory>
    ensures { IfOk result (λ s. tree s ≡ within symbol (tree high)) }
{
    let (above, below) = both(
        from_zero(alloc, Term::Symbol(symbol)),
        below(alloc, symbol, high),
    )?;
    Term::binary(alloc, Binary::And, above, below)
}

fn within_places(alloc: Global, symbol: u32) -> Result<Term, NoMemory>
    ensures { IfOk result (λ s. tree s ≡ within symbol size) }
{
    let high = size_of_a(alloc)?;
    within_high(alloc, symbol, high)
}

/// 0 < a(at)
#[tactic(auto, using(term_trees::proofs::Trees::leaf_lines))]
fn positive_at(alloc: Global, at: Term) -> Result<Term, NoMemory>
    ensures { IfOk result (λ t. tree t ≡ positive (tree at)) }
{
    let read = Term::binary(alloc, Binary::Read, Term::Symbol(A), at)?;
    Term::binary(alloc, Binary::Lt, Term::Lit(0), read)
}

#[tactic(auto, using(term_trees::proofs::Trees::leaf_lines))]
fn positive_symbol(alloc: Global, symbol: u32) -> Result<Term, NoMemory>
    ensures { IfOk result (λ t. tree t ≡ positive (name symbol)) }
{
    positive_at(alloc, Term::Symbol(symbol))
}

fn chosen_k(alloc: Global) -> Result<Term, NoMemory>
    ensures { IfOk result (λ t. tree t ≡ chosen) }
{
    let (range, positive) = both(within_places(alloc, K), positive_symbol(alloc, K))?;
    Term::binary(alloc, Binary::And, range, positive)
}

/// p beside 0 < a(k)
#[tactic(auto, using(term_trees::proofs::Trees::leaf_lines))]
fn p_or_positive(alloc: Global) -> Result<Term, NoMemory>
    ensures { IfOk result (λ t. tree t ≡ either (name 0) (positive (name 3))) }
{
    let positive = positive_symbol(alloc, K)?;
    Term::binary(alloc, Binary::Or, Term::Symbol(0), positive)
}

#[tactic(auto, using(term_trees::proofs::Trees::leaf_lines))]
fn positive_or_p(alloc: Global) -> Result<Term, NoMemory>
    ensures { IfOk result (λ t. tree t ≡ either (positive (name 3)) (name 0)) }
{
    let positive = positive_symbol(alloc, K)?;
    Term::binary(alloc, Binary::Or, positive, Term::Symbol(0))
}

#[tactic(auto, using(term_trees::proofs::Trees::leaf_lines))]
fn next_of_n(alloc: Global) -> Result<Term, NoMemory>
    ensures { IfOk result (λ t. tree t ≡ next) }
{
    Term::binary(alloc, Binary::Add, Term::Symbol(N), Term::Lit(1))
}

#[tactic(auto, using(term_trees::proofs::Trees::leaf_lines))]
fn n_is_next(alloc: Global) -> Result<Term, NoMemory>
    ensures { IfOk result (λ t. tree t ≡ is_next) }
{
    let next = next_of_n(alloc)?;
    Term::binary(alloc, Binary::Eq, Term::Symbol(N), next)
}

fn next_from_zero(alloc: Global) -> Result<Term, NoMemory>
    ensures { IfOk result (λ t. tree t ≡ zero_to next) }
{
    let next = next_of_n(alloc)?;
    from_zero(alloc, next)
}

#[tactic(auto, using(term_trees::proofs::Trees::leaf_lines))]
fn until(alloc: Global, quantifier: Quantifier, high: Term) -> Result<Term, NoMemory>
    ensures { IfOk result (λ t. tree t ≡ over quantifier (tree high)) }
{
    let (high, body) = both(Ok(high), positive_at(alloc, Term::Bound(0)))?;
    Term::quantified(alloc, quantifier, Term::Lit(0), high, body)
}

fn of_places(alloc: Global, quantifier: Quantifier) -> Result<Term, NoMemory>
    ensures { IfOk result (λ t. tree t ≡ over quantifier size) }
{
    let high = size_of_a(alloc)?;
    until(alloc, quantifier, high)
}

/// The claim of that number, and T where there is none.
#[tactic(auto, using(term_trees::proofs::Trees::leaf_lines))]
pub fn claim(alloc: Global, number: Claim) -> Result<Term, NoMemory>
    ensures { IfOk result (λ t. tree t ≡ test_claim number) }
{
    match number {
        0 => Ok(Term::Symbol(0)),
        1 => Ok(Term::Symbol(1)),
        2 => of_two(alloc, Binary::And, 0, 1),
        3 => of_two(alloc, Binary::Or, 0, 1),
        4 => of_two(alloc, Binary::Imply, 0, 1),
        5 => not_p(alloc),
        6 => Ok(Term::False),
        7 => within_places(alloc, N),
        8 => positive_symbol(alloc, N),
        9 => of_places(alloc, Quantifier::All),
        10 => of_places(alloc, Quantifier::Exists),
        11 => of_two(alloc, Binary::Eq, 0, 1),
        12 => n_is_next(alloc),
        13 => from_zero(alloc, Term::Symbol(N)),
        14 => next_from_zero(alloc),
        15 => of_two(alloc, Binary::And, 1, 0),
        16 => within_places(alloc, K),
        17 => positive_symbol(alloc, K),
        18 => chosen_k(alloc),
        19 => p_or_positive(alloc),
        20 => positive_or_p(alloc),
        21 => within_high(alloc, K, Term::Symbol(K)),
        22 => until(alloc, Quantifier::All, Term::Symbol(K)),
        _ => Ok(Term::True),
    }
}
