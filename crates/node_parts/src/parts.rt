ghost use Rattle.std.specs.Prelude.{◌≡◌, length, IfOk};
ghost use Rattle.term_nodes.specs.Node.{shape_numbers, numbers, node_head};
ghost use Rattle.term_nodes.specs.declared.node.Node.{Node};

use crate::NoMemory;
use sqlite_items::Items;
use std::alloc::Global;
use term_nodes::{Node, NodeShape};
use term_trees::Sort;

/// The numbers of a node's parts.
pub fn parts_of(alloc: Global, node: &Node) -> Result<Vec<usize>, NoMemory>
    ensures { IfOk result (λ v. v.items ≡ numbers node.now) }
{
    shape_parts(alloc, node.shape())
}

fn shape_parts(alloc: Global, shape: NodeShape<'_>) -> Result<Vec<usize>, NoMemory>
    ensures { IfOk result (λ v. v.items ≡ shape_numbers shape.entry) }
{
    match shape {
        NodeShape::Literal(_) | NodeShape::Truth(_) | NodeShape::Symbol(_) | NodeShape::Bound(_) =>
            Ok(Vec::new(alloc)),
        NodeShape::Unary(_, a) => Vec::from_slice(alloc, &[a]),
        NodeShape::Binary(_, a, b) => Vec::from_slice(alloc, &[a, b]),
        NodeShape::Update(a, i, x) => Vec::from_slice(alloc, &[a, i, x]),
        NodeShape::Quantified(_, low, high, body) => Vec::from_slice(alloc, &[low, high, body]),
        NodeShape::Sequence(_, parts) => Vec::from_slice(alloc, parts),
        NodeShape::Record(_, parts) => Vec::from_slice(alloc, parts),
    }
}

/// The node with other parts.
#[tactic(auto, using(term_nodes::proofs::Numbers::number_lists))]
pub fn over_parts(alloc: Global, node: &Node, ids: &[usize]) -> Result<Node, NoMemory>
    requires { length ids.now ≡ length (numbers node.now) }
    ensures { IfOk result (λ n. (node_head n ≡ node_head node.now) × (numbers n ≡ ids.now)) }
{
    match node.shape() {
        NodeShape::Literal(z) => Ok(Node::Lit(z)),
        NodeShape::Truth(b) => Ok(Node::truth(b)),
        NodeShape::Symbol(n) => Ok(Node::Symbol(n)),
        NodeShape::Bound(n) => Ok(Node::Bound(n)),
        NodeShape::Unary(op, _) => Ok(Node::unary(op, ids[0])),
        NodeShape::Binary(op, _, _) => Ok(Node::binary(op, ids[0], ids[1])),
        NodeShape::Update(_, _, _) => Ok(Node::Update(ids[0], ids[1], ids[2])),
        NodeShape::Quantified(q, _, _, _) => Ok(Node::quantified(q, ids[0], ids[1], ids[2])),
        NodeShape::Sequence(s, _) => sequence_over(alloc, s, ids),
        NodeShape::Record(n, _) => Ok(Node::Rec(n, Items::from_slice(alloc, ids)?)),
    }
}

fn sequence_over(alloc: Global, sort: &Sort, ids: &[usize]) -> Result<Node, NoMemory>
    ensures { IfOk result (λ n. n ≡ Node.SeqLit sort.now ids.now) }
{
    let ids = Items::from_slice(alloc, ids)?;
    Ok(Node::SeqLit(sort.copy(alloc)?, ids))
}
