ghost use Rattle.std.specs.Prelude.{◌≡◌, [], ◌++◌, IfOk, OnOk};
ghost use Rattle.slang_values.specs.Tree.{unary, binary, quantified};
ghost use Rattle.term_trees.specs.Term.{sort_type};
ghost use Rattle.tree_forms.specs.Order as order;
ghost use Rattle.term_nodes.specs.Node.{shape_tree, shape_numbers};

use crate::NoMemory;
use crate::node::{Node, NodeShape};
use slang_values::{Binary, Quantifier, Unary};
use std::alloc::Global;
use term_trees::Sort;

/// What a node is without its parts.
#[derive(PartialEq, Eq, PartialOrd, Ord, Drop)]
pub struct HeadKey {
    kind: u8,
    number: Option<i128>,
    sort: Vec<u32>,
}

/// What a node is found by.
#[derive(PartialEq, Eq, PartialOrd, Ord, Drop)]
pub struct Key {
    head: HeadKey,
    parts: Vec<usize>,
}

impl Key {
    ghost use Rattle.std.specs.Prelude.{◌≡◌, IfOk};
    ghost use Rattle.term_nodes.specs.Key.{key_data, node_data};

    pub fn of(alloc: Global, node: &Node) -> Result<Key, NoMemory>
        ensures { IfOk result (λ k. key_data k ≡ node_data node.now) }
    {
        let shape = node.shape();
        let sort = sort_numbers(alloc, shape)?;
        let parts = part_numbers(alloc, shape)?;
        let head = HeadKey {
            kind: kind(shape),
            number: number_in(shape),
            sort,
        };
        Ok(Key { head, parts })
    }

    /// The numbers of the node's parts.
    pub fn parts(&self) -> &[usize]
        ensures { result.now ≡ (key_data self.now).parts }
    {
        &self.parts
    }
}

fn part_numbers(alloc: Global, shape: NodeShape<'_>) -> Result<Vec<usize>, NoMemory>
    ensures { IfOk result (λ v. v.items ≡ shape_numbers shape.entry) }
{
    match shape {
        NodeShape::Literal(_) | NodeShape::Truth(_) | NodeShape::Symbol(_) | NodeShape::Bound(_) =>
            Ok(Vec::new(alloc)),
        NodeShape::Unary(_, a) => Vec::from_slice(alloc, &[a]),
        NodeShape::Binary(_, a, b) => Vec::from_slice(alloc, &[a, b]),
        NodeShape::Update(a, i, x) => Vec::from_slice(alloc, &[a, i, x]),
        NodeShape::Quantified(_, low, high, body) => Vec::from_slice(alloc, &[low, high, body]),
        NodeShape::Sequence(_, parts) => Vec::from_slice(alloc, parts),
        NodeShape::Record(_, parts) => Vec::from_slice(alloc, parts),
    }
}

fn kind(shape: NodeShape<'_>) -> u8
    ensures { result ≡ order.kind (shape_tree [] shape.entry) }
{
    match shape {
        NodeShape::Literal(_) => 0,
        NodeShape::Truth(b) => { if b { 1 } else { 2 } }
        NodeShape::Symbol(_) => 3,
        NodeShape::Bound(_) => 4,
        NodeShape::Unary(op, _) => unary_kind(op),
        NodeShape::Binary(op, _, _) => binary_kind(op),
        NodeShape::Update(_, _, _) => 20,
        NodeShape::Quantified(q, _, _, _) => quantifier_kind(q),
        NodeShape::Sequence(_, _) => 22,
        NodeShape::Record(_, _) => 23,
    }
}

fn unary_kind(op: Unary) -> u8
    ensures { result ≡ order.unary_kind op }
{
    match op {
        Unary::Neg => 5,
        Unary::Not => 6,
        Unary::Size => 18,
        Unary::Field(_) => 24,
    }
}

fn binary_kind(op: Binary) -> u8
    ensures { result ≡ order.binary_kind op }
{
    match op {
        Binary::Add => 7,
        Binary::Sub => 8,
        Binary::Mul => 9,
        Binary::Div => 10,
        Binary::Rem => 11,
        Binary::And => 12,
        Binary::Or => 13,
        Binary::Imply => 14,
        Binary::Eq => 15,
        Binary::Lt => 16,
        Binary::Le => 17,
        Binary::Read => 19,
        Binary::Append => 21,
    }
}

fn quantifier_kind(quantifier: Quantifier) -> u8
    ensures { result ≡ order.quantifier_kind quantifier }
{
    match quantifier {
        Quantifier::All => 25,
        Quantifier::Exists => 26,
    }
}

fn number_in(shape: NodeShape<'_>) -> Option<i128>
    ensures { result ≡ order.number_in (shape_tree [] shape.entry) }
{
    match shape {
        NodeShape::Literal(z) => Some(z),
        NodeShape::Symbol(n) => Some(i128::from(n)),
        NodeShape::Bound(n) => Some(i128::from(n)),
        NodeShape::Record(n, _) => Some(i128::from(n)),
        NodeShape::Unary(Unary::Field(k), _) => Some(i128::from(k)),
        _ => None,
    }
}

/// The sort of a sequence's elements, as numbers.
fn sort_numbers(alloc: Global, shape: NodeShape<'_>) -> Result<Vec<u32>, NoMemory>
    ensures { IfOk result (λ v. v.items ≡ order.type_in (shape_tree [] shape.entry)) }
{
    let mut numbers = Vec::new(alloc);
    if let NodeShape::Sequence(sort, _) = shape {
        push_sort(&mut numbers, sort)?;
    }
    Ok(numbers)
}

#[tactic(auto, using(term_trees::proofs::Sorts::sort_lines, std::proofs::Common::append_assoc))]
fn push_sort(numbers: &mut Vec<u32>, sort: &Sort) -> Result<(), NoMemory>
    ensures { OnOk result (numbers.new.items ≡ numbers.old.items ++ order.type_numbers (sort_type sort.now)) }
{
    match sort {
        Sort::Z => numbers.push(0)?,
        Sort::B => numbers.push(1)?,
        Sort::Seq(element) => {
            numbers.push(2)?;
            push_sort(numbers, element.get())?;
        }
        Sort::Rec(n) => {
            numbers.push(3)?;
            numbers.push(*n)?;
        }
    }
    Ok(())
}
