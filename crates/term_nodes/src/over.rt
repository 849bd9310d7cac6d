ghost use Rattle.std.specs.Prelude.{◌≡◌, length, IfOk};
ghost use Rattle.slang_values.specs.Tree.{parts};
ghost use Rattle.term_trees.specs.Term.{tree};
ghost use Rattle.tree_forms.specs.Order.{head};
ghost use Rattle.term_nodes.specs.declared.node.Node.{Node};
ghost use Rattle.term_nodes.specs.Node.{node_head, numbers};

use crate::NoMemory;
use crate::node::Node;
use sqlite_items::Items;
use std::alloc::Global;
use term_trees::{Shape, Sort, Term};

/// The node with the term's operator, over the parts with these numbers.
#[tactic(auto, using(crate::proofs::Numbers::number_lists))]
pub fn node_over(alloc: Global, term: &Term, ids: &[usize]) -> Result<Node, NoMemory>
    requires { length ids.now ≡ length (parts (tree term.now)) }
    ensures { IfOk result (λ n. (node_head n ≡ head (tree term.now)) × (numbers n ≡ ids.now)) }
{
    match term.shape() {
        Shape::Literal(z) => Ok(Node::Lit(z)),
        Shape::Truth(b) => Ok(Node::truth(b)),
        Shape::Symbol(n) => Ok(Node::Symbol(n)),
        Shape::Bound(n) => Ok(Node::Bound(n)),
        Shape::Unary(op, _) => Ok(Node::unary(op, ids[0])),
        Shape::Binary(op, _, _) => Ok(Node::binary(op, ids[0], ids[1])),
        Shape::Update(_, _, _) => Ok(Node::Update(ids[0], ids[1], ids[2])),
        Shape::Quantified(q, _, _, _) => Ok(Node::quantified(q, ids[0], ids[1], ids[2])),
        Shape::Sequence(s, _) => sequence_over(alloc, s, ids),
        Shape::Record(n, _) => Ok(Node::Rec(n, Items::from_slice(alloc, ids)?)),
    }
}

fn sequence_over(alloc: Global, sort: &Sort, ids: &[usize]) -> Result<Node, NoMemory>
    ensures { IfOk result (λ n. n ≡ Node.SeqLit sort.now ids.now) }
{
    let ids = Items::from_slice(alloc, ids)?;
    Ok(Node::SeqLit(sort.copy(alloc)?, ids))
}
