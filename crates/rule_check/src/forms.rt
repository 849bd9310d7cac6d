ghost use Rattle.std.specs.Prelude.{◌≡◌, ℕ, Bool, ◌&&◌};
ghost use Rattle.slang_values.specs.Tree.{Tree, unary};
ghost use Rattle.term_trees.specs.Term.{tree};
ghost use Rattle.tree_forms.specs.Order.{binary_kind};
ghost use Rattle.deduction_rules.specs.Replacement.{same_tree};
ghost use Rattle.deduction_rules.specs.Rules as rule;
ghost use Rattle.rule_check.specs.Forms.{of_one, of_two, of_three};

use slang_values::{Binary, Quantifier, Unary};
use term_trees::{Shape, Term};
use term_walks::compare;

/// Whether the terms are the same.
pub fn same(a: &Term, b: &Term) -> bool
    ensures { result ≡ same_tree (tree a.now) (tree b.now) }
{
    compare(a, b).is_eq()
}

#[tactic(auto, using(term_trees::proofs::Trees::leaf_lines))]
pub fn is_false(term: &Term) -> bool
    ensures { result ≡ rule.is_false (tree term.now) }
{
    same(&Term::False, term)
}

/// The number by which operators are told apart.
fn kind(op: Binary) -> u8
    ensures { result ≡ binary_kind op }
{
    match op {
        Binary::Add => 7,
        Binary::Sub => 8,
        Binary::Mul => 9,
        Binary::Div => 10,
        Binary::Rem => 11,
        Binary::And => 12,
        Binary::Or => 13,
        Binary::Imply => 14,
        Binary::Eq => 15,
        Binary::Lt => 16,
        Binary::Le => 17,
        Binary::Read => 19,
        Binary::Append => 21,
    }
}

/// The parts of a term of that operator.
pub fn joined(op: Binary, term: &Term) -> Option<(&Term, &Term)>
    ensures { (test : Tree ℕ → Tree ℕ → Bool) → rule.is_joined op test (tree term.now) ≡ of_two test result }
{
    match term.shape() {
        Shape::Binary(other, a, b) => {
            if kind(op) == kind(other) {
                Some((a, b))
            } else {
                None
            }
        }
        Shape::Literal(_) => None,
        Shape::Truth(_) => None,
        Shape::Symbol(_) => None,
        Shape::Bound(_) => None,
        Shape::Unary(_, _) => None,
        Shape::Update(_, _, _) => None,
        Shape::Quantified(_, _, _, _) => None,
        Shape::Sequence(_, _) => None,
        Shape::Record(_, _) => None,
    }
}

/// Whether the term is `left op right`.
pub fn joins(op: Binary, term: &Term, left: &Term, right: &Term) -> bool
    ensures { result ≡ rule.is_joined op (λ l r. same_tree l (tree left.now) && same_tree r (tree right.now)) (tree term.now) }
{
    match joined(op, term) {
        Some((l, r)) => same(l, left) && same(r, right),
        None => false,
    }
}

/// Whether the left part of a term of that operator is the other.
pub fn has_left(op: Binary, term: &Term, left: &Term) -> bool
    ensures { result ≡ rule.is_joined op (λ l r. same_tree l (tree left.now)) (tree term.now) }
{
    match joined(op, term) {
        Some((l, _)) => same(l, left),
        None => false,
    }
}

pub fn has_right(op: Binary, term: &Term, right: &Term) -> bool
    ensures { result ≡ rule.is_joined op (λ l r. same_tree r (tree right.now)) (tree term.now) }
{
    match joined(op, term) {
        Some((_, r)) => same(r, right),
        None => false,
    }
}

/// Whether the term is the negation of the part.
pub fn negates(term: &Term, part: &Term) -> bool
    ensures { result ≡ rule.is_negation (λ p. same_tree p (tree part.now)) (tree term.now) }
{
    match term.shape() {
        Shape::Unary(op, a) => is_not(op) && same(a, part),
        Shape::Literal(_) => false,
        Shape::Truth(_) => false,
        Shape::Symbol(_) => false,
        Shape::Bound(_) => false,
        Shape::Binary(_, _, _) => false,
        Shape::Update(_, _, _) => false,
        Shape::Quantified(_, _, _, _) => false,
        Shape::Sequence(_, _) => false,
        Shape::Record(_, _) => false,
    }
}

fn is_not(op: Unary) -> bool
    ensures { (test : Tree ℕ → Bool) (a : Tree ℕ) → rule.is_negation test (unary op a) ≡ (result && test a) }
{
    match op {
        Unary::Not => true,
        Unary::Neg => false,
        Unary::Size => false,
        Unary::Field(_) => false,
    }
}

/// Low, high and body of a term that says `All`.
pub fn for_all(term: &Term) -> Option<(&Term, &Term, &Term)>
    ensures { (test : Tree ℕ → Tree ℕ → Tree ℕ → Bool) → rule.is_all test (tree term.now) ≡ of_three test result }
{
    match term.shape() {
        Shape::Quantified(Quantifier::All, low, high, body) => Some((low, high, body)),
        Shape::Quantified(Quantifier::Exists, _, _, _) => None,
        Shape::Literal(_) => None,
        Shape::Truth(_) => None,
        Shape::Symbol(_) => None,
        Shape::Bound(_) => None,
        Shape::Unary(_, _) => None,
        Shape::Binary(_, _, _) => None,
        Shape::Update(_, _, _) => None,
        Shape::Sequence(_, _) => None,
        Shape::Record(_, _) => None,
    }
}

/// Low, high and body of a term that says `Exists`.
pub fn for_some(term: &Term) -> Option<(&Term, &Term, &Term)>
    ensures { (test : Tree ℕ → Tree ℕ → Tree ℕ → Bool) → rule.is_exists test (tree term.now) ≡ of_three test result }
{
    match term.shape() {
        Shape::Quantified(Quantifier::Exists, low, high, body) => Some((low, high, body)),
        Shape::Quantified(Quantifier::All, _, _, _) => None,
        Shape::Literal(_) => None,
        Shape::Truth(_) => None,
        Shape::Symbol(_) => None,
        Shape::Bound(_) => None,
        Shape::Unary(_, _) => None,
        Shape::Binary(_, _, _) => None,
        Shape::Update(_, _, _) => None,
        Shape::Sequence(_, _) => None,
        Shape::Record(_, _) => None,
    }
}

/// The t of a term that is `low <= t & t < high`.
pub fn in_range<'a>(term: &'a Term, low: &Term, high: &Term) -> Option<&'a Term>
    ensures { (test : Tree ℕ → Bool) → rule.is_in_range (tree low.now) (tree high.now) test (tree term.now) ≡ of_one test result }
{
    match joined(Binary::And, term) {
        Some((above, below)) => between(above, below, low, high),
        None => None,
    }
}

fn between<'a>(above: &'a Term, below: &'a Term, low: &Term, high: &Term) -> Option<&'a Term>
    ensures { (test : Tree ℕ → Bool) → rule.is_joined Binary.Le
        (λ l t. rule.is_joined Binary.Lt (λ u h. same_tree (tree low.now) l && same_tree t u && same_tree (tree high.now) h && test t) (tree below.now))
        (tree above.now) ≡ of_one test result }
{
    match joined(Binary::Le, above) {
        Some((l, t)) => {
            if is_below(below, low, l, t, high) {
                Some(t)
            } else {
                None
            }
        }
        None => None,
    }
}

/// Whether the term is `t < high`, and l is low.
fn is_below(term: &Term, low: &Term, l: &Term, t: &Term, high: &Term) -> bool
    ensures { (test : Bool) → rule.is_joined Binary.Lt
        (λ u h. same_tree (tree low.now) (tree l.now) && same_tree (tree t.now) u && same_tree (tree high.now) h && test) (tree term.now) ≡ (result && test) }
{
    match joined(Binary::Lt, term) {
        Some((u, h)) => same(low, l) && same(t, u) && same(high, h),
        None => false,
    }
}
