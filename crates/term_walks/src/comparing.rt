ghost use Rattle.std.specs.Prelude.{◌≡◌, length};
ghost use Rattle.std.specs.Cmp.Lexicographic.{slice_cmp};
ghost use Rattle.std.specs.Ordering.{ordering_then, nat_cmp, int_cmp};
ghost use Rattle.slang_values.specs.Tree.{parts};
ghost use Rattle.term_trees.specs.Term.{sort_type, tree};
ghost use Rattle.tree_forms.specs.Order as order;
ghost use Rattle.term_walks.specs.SortOrder.{numbers_of};

use slang_values::{Binary, Quantifier, Unary};
use std::cmp::Ordering;
use term_trees::{Shape, Sort, Term};

/// The order of terms: by kind, then by the number or the sort in the node, then the one with fewer parts first, then by the
/// parts from the left. It answers Equal for equal terms alone.
#[cycle(compare)]
pub fn compare(a: &Term, b: &Term) -> Ordering
    ensures { result ≡ order.tree_cmp (tree a.now) (tree b.now) }
{
    match compare_heads(a, b) {
        Ordering::Equal => compare_parts(a, b),
        unequal => unequal,
    }
}

#[cycle(compare)]
fn compare_parts(a: &Term, b: &Term) -> Ordering
    ensures { result
        ≡ ordering_then (nat_cmp (length (parts (tree a.now))) (length (parts (tree b.now)))) (slice_cmp order.tree_cmp (parts (tree a.now)) (parts (tree b.now))) }
{
    let count = a.part_count();
    let other_count = b.part_count();
    if count < other_count {
        return Ordering::Less;
    }
    if other_count < count {
        return Ordering::Greater;
    }
    for place in 0..count {
        match compare(a.part(place), b.part(place)) {
            Ordering::Equal => {}
            unequal => return unequal,
        }
    }
    Ordering::Equal
}

/// What a term is without its parts.
pub fn compare_heads(a: &Term, b: &Term) -> Ordering
    ensures { result ≡ order.head_cmp (order.head (tree a.now)) (order.head (tree b.now)) }
{
    kind(a)
        .cmp(&kind(b))
        .then(number_in(a).cmp(&number_in(b)))
        .then(compare_sorts_in(sort_in(a), sort_in(b)))
}

fn kind(term: &Term) -> u8
    ensures { result ≡ order.kind (tree term.now) }
{
    match term.shape() {
        Shape::Literal(_) => 0,
        Shape::Truth(b) => { if b { 1 } else { 2 } }
        Shape::Symbol(_) => 3,
        Shape::Bound(_) => 4,
        Shape::Unary(op, _) => unary_kind(op),
        Shape::Binary(op, _, _) => binary_kind(op),
        Shape::Update(_, _, _) => 20,
        Shape::Quantified(q, _, _, _) => quantifier_kind(q),
        Shape::Sequence(_, _) => 22,
        Shape::Record(_, _) => 23,
    }
}

fn unary_kind(op: Unary) -> u8
    ensures { result ≡ order.unary_kind op }
{
    match op {
        Unary::Neg => 5,
        Unary::Not => 6,
        Unary::Size => 18,
        Unary::Field(_) => 24,
    }
}

fn binary_kind(op: Binary) -> u8
    ensures { result ≡ order.binary_kind op }
{
    match op {
        Binary::Add => 7,
        Binary::Sub => 8,
        Binary::Mul => 9,
        Binary::Div => 10,
        Binary::Rem => 11,
        Binary::And => 12,
        Binary::Or => 13,
        Binary::Imply => 14,
        Binary::Eq => 15,
        Binary::Lt => 16,
        Binary::Le => 17,
        Binary::Read => 19,
        Binary::Append => 21,
    }
}

fn quantifier_kind(quantifier: Quantifier) -> u8
    ensures { result ≡ order.quantifier_kind quantifier }
{
    match quantifier {
        Quantifier::All => 25,
        Quantifier::Exists => 26,
    }
}

fn number_in(term: &Term) -> Option<i128>
    ensures { result ≡ order.number_in (tree term.now) }
{
    match term.shape() {
        Shape::Literal(z) => Some(z),
        Shape::Symbol(n) => Some(i128::from(n)),
        Shape::Bound(n) => Some(i128::from(n)),
        Shape::Record(n, _) => Some(i128::from(n)),
        Shape::Unary(op, _) => number_in_unary(op),
        Shape::Truth(_) => None,
        Shape::Binary(_, _, _) => None,
        Shape::Update(_, _, _) => None,
        Shape::Quantified(_, _, _, _) => None,
        Shape::Sequence(_, _) => None,
    }
}

fn number_in_unary(op: Unary) -> Option<i128>
    ensures { result ≡ order.unary_number op }
{
    match op {
        Unary::Field(k) => Some(i128::from(k)),
        Unary::Neg => None,
        Unary::Not => None,
        Unary::Size => None,
    }
}

fn sort_in(term: &Term) -> Option<&Sort>
    ensures { order.type_in (tree term.now) ≡ numbers_of result }
{
    match term.shape() {
        Shape::Sequence(s, _) => Some(s),
        Shape::Literal(_) => None,
        Shape::Truth(_) => None,
        Shape::Symbol(_) => None,
        Shape::Bound(_) => None,
        Shape::Unary(_, _) => None,
        Shape::Binary(_, _, _) => None,
        Shape::Update(_, _, _) => None,
        Shape::Quantified(_, _, _, _) => None,
        Shape::Record(_, _) => None,
    }
}

#[tactic(auto, using(crate::proofs::CompareLemmas::none_lines))]
/// Z, B, sequences by their elements, and records by their numbers; none comes first.
fn compare_sorts_in(a: Option<&Sort>, b: Option<&Sort>) -> Ordering
    ensures { result ≡ slice_cmp nat_cmp (numbers_of a.entry) (numbers_of b.entry) }
{
    match a {
        None => match b {
            None => Ordering::Equal,
            Some(_) => Ordering::Less,
        },
        Some(s) => match b {
            None => Ordering::Greater,
            Some(t) => compare_sorts(s, t),
        },
    }
}

#[tactic(auto, using(term_trees::proofs::Sorts::sort_lines))]
fn compare_sorts(a: &Sort, b: &Sort) -> Ordering
    ensures { result ≡ slice_cmp nat_cmp (order.type_numbers (sort_type a.now)) (order.type_numbers (sort_type b.now)) }
{
    match a {
        Sort::Z => match b {
            Sort::Z => Ordering::Equal,
            Sort::B => Ordering::Less,
            Sort::Seq(_) => Ordering::Less,
            Sort::Rec(_) => Ordering::Less,
        },
        Sort::B => match b {
            Sort::Z => Ordering::Greater,
            Sort::B => Ordering::Equal,
            Sort::Seq(_) => Ordering::Less,
            Sort::Rec(_) => Ordering::Less,
        },
        Sort::Seq(s) => match b {
            Sort::Z => Ordering::Greater,
            Sort::B => Ordering::Greater,
            Sort::Seq(t) => compare_sorts(s.get(), t.get()),
            Sort::Rec(_) => Ordering::Less,
        },
        Sort::Rec(m) => match b {
            Sort::Z => Ordering::Greater,
            Sort::B => Ordering::Greater,
            Sort::Seq(_) => Ordering::Greater,
            Sort::Rec(n) => m.cmp(n),
        },
    }
}
