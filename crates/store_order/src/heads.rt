ghost use Rattle.std.specs.Prelude.{◌≡◌, [], length};
ghost use Rattle.std.specs.Cmp.Lexicographic.{slice_cmp};
ghost use Rattle.std.specs.Ordering.{ordering_then, nat_cmp};
ghost use Rattle.term_trees.specs.Term.{sort_type};
ghost use Rattle.tree_forms.specs.Order as order;
ghost use Rattle.term_nodes.specs.Node.{shape_tree, shape_numbers};
ghost use Rattle.store_order.specs.Compared.{numbers_of};

use crate::parts::part_count;
use slang_values::{Binary, Quantifier, Unary};
use std::cmp::Ordering;
use term_nodes::NodeShape;
use term_trees::Sort;

/// By the heads, and then the one with fewer parts first.
pub fn compare_tops(a: NodeShape<'_>, b: NodeShape<'_>) -> Ordering
    ensures { result
        ≡ ordering_then (order.head_cmp (order.head (shape_tree [] a.entry)) (order.head (shape_tree [] b.entry)))
        (nat_cmp (length (shape_numbers a.entry)) (length (shape_numbers b.entry))) }
{
    compare_heads(a, b).then(part_count(a).cmp(&part_count(b)))
}

/// What a node is without its parts.
fn compare_heads(a: NodeShape<'_>, b: NodeShape<'_>) -> Ordering
    ensures { result ≡ order.head_cmp (order.head (shape_tree [] a.entry)) (order.head (shape_tree [] b.entry)) }
{
    kind(a)
        .cmp(&kind(b))
        .then(number_in(a).cmp(&number_in(b)))
        .then(compare_sorts_in(sort_in(a), sort_in(b)))
}

fn kind(shape: NodeShape<'_>) -> u8
    ensures { result ≡ order.kind (shape_tree [] shape.entry) }
{
    match shape {
        NodeShape::Literal(_) => 0,
        NodeShape::Truth(b) => { if b { 1 } else { 2 } }
        NodeShape::Symbol(_) => 3,
        NodeShape::Bound(_) => 4,
        NodeShape::Unary(op, _) => unary_kind(op),
        NodeShape::Binary(op, _, _) => binary_kind(op),
        NodeShape::Update(_, _, _) => 20,
        NodeShape::Quantified(q, _, _, _) => quantifier_kind(q),
        NodeShape::Sequence(_, _) => 22,
        NodeShape::Record(_, _) => 23,
    }
}

fn unary_kind(op: Unary) -> u8
    ensures { result ≡ order.unary_kind op }
{
    match op {
        Unary::Neg => 5,
        Unary::Not => 6,
        Unary::Size => 18,
        Unary::Field(_) => 24,
    }
}

fn binary_kind(op: Binary) -> u8
    ensures { result ≡ order.binary_kind op }
{
    match op {
        Binary::Add => 7,
        Binary::Sub => 8,
        Binary::Mul => 9,
        Binary::Div => 10,
        Binary::Rem => 11,
        Binary::And => 12,
        Binary::Or => 13,
        Binary::Imply => 14,
        Binary::Eq => 15,
        Binary::Lt => 16,
        Binary::Le => 17,
        Binary::Read => 19,
        Binary::Append => 21,
    }
}

fn quantifier_kind(quantifier: Quantifier) -> u8
    ensures { result ≡ order.quantifier_kind quantifier }
{
    match quantifier {
        Quantifier::All => 25,
        Quantifier::Exists => 26,
    }
}

fn number_in(shape: NodeShape<'_>) -> Option<i128>
    ensures { result ≡ order.number_in (shape_tree [] shape.entry) }
{
    match shape {
        NodeShape::Literal(z) => Some(z),
        NodeShape::Symbol(n) => Some(i128::from(n)),
        NodeShape::Bound(n) => Some(i128::from(n)),
        NodeShape::Record(n, _) => Some(i128::from(n)),
        NodeShape::Unary(Unary::Field(k), _) => Some(i128::from(k)),
        _ => None,
    }
}

fn sort_in<'a>(shape: NodeShape<'a>) -> Option<&'a Sort>
    ensures { order.type_in (shape_tree [] shape.entry) ≡ numbers_of result }
{
    match shape {
        NodeShape::Sequence(s, _) => Some(s),
        NodeShape::Literal(_) | NodeShape::Truth(_) | NodeShape::Symbol(_) | NodeShape::Bound(_) =>
            None,
        NodeShape::Unary(_, _) | NodeShape::Binary(_, _, _) | NodeShape::Update(_, _, _) => None,
        NodeShape::Quantified(_, _, _, _) => None,
        NodeShape::Record(_, _) => None,
    }
}

/// Z, B, sequences by their elements, and records by their numbers; none comes first.
#[tactic(auto, using(crate::proofs::NoSort::none_lines))]
fn compare_sorts_in(a: Option<&Sort>, b: Option<&Sort>) -> Ordering
    ensures { result ≡ slice_cmp nat_cmp (numbers_of a.entry) (numbers_of b.entry) }
{
    match a {
        None => match b {
            None => Ordering::Equal,
            Some(_) => Ordering::Less,
        },
        Some(s) => match b {
            None => Ordering::Greater,
            Some(t) => compare_sorts(s, t),
        },
    }
}

#[tactic(auto, using(term_trees::proofs::Sorts::sort_lines))]
fn compare_sorts(a: &Sort, b: &Sort) -> Ordering
    ensures { result ≡ slice_cmp nat_cmp (order.type_numbers (sort_type a.now)) (order.type_numbers (sort_type b.now)) }
{
    match a {
        Sort::Z => match b {
            Sort::Z => Ordering::Equal,
            Sort::B => Ordering::Less,
            Sort::Seq(_) => Ordering::Less,
            Sort::Rec(_) => Ordering::Less,
        },
        Sort::B => match b {
            Sort::Z => Ordering::Greater,
            Sort::B => Ordering::Equal,
            Sort::Seq(_) => Ordering::Less,
            Sort::Rec(_) => Ordering::Less,
        },
        Sort::Seq(s) => match b {
            Sort::Z => Ordering::Greater,
            Sort::B => Ordering::Greater,
            Sort::Seq(t) => compare_sorts(s.get(), t.get()),
            Sort::Rec(_) => Ordering::Less,
        },
        Sort::Rec(m) => match b {
            Sort::Z => Ordering::Greater,
            Sort::B => Ordering::Greater,
            Sort::Seq(_) => Ordering::Greater,
            Sort::Rec(n) => m.cmp(n),
        },
    }
}
