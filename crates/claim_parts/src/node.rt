ghost use Rattle.std.specs.Prelude.{◌≡◌, true, None, length, IfOk};
ghost use Rattle.slang_values.specs.Tree.{parts, listed, sequence_of, no_trees};
ghost use Rattle.tree_forms.specs.Order.{head};
ghost use Rattle.term_nodes.specs.Node.{node_head, numbers};
ghost use Rattle.lk_claims.specs.Claim.{claim_tree, value_type};
ghost use Rattle.leg_sorts.specs.Sorts.{has_sort};
ghost use Rattle.claim_reading.specs.Readable.{name_in, top_has_sort};
ghost use Rattle.claim_reading.specs.Reading.{claim_head};

use crate::NoMemory;
use leg_sorts::sort_of;
use lk_claims::{Claim, Shape, Ty};
use sqlite_items::Items;
use std::alloc::Global;
use term_nodes::Node;

/// The node with the operator of a claim that is no name, over the parts with these numbers.
#[tactic(auto, using(term_nodes::proofs::Numbers::number_lists))]
pub fn node_over(alloc: Global, claim: &Claim, ids: &[usize]) -> Result<Node, NoMemory>
    requires count { length ids.now ≡ length (parts (claim_tree claim.now)) }
    requires inner { name_in (claim_tree claim.now) ≡ None }
    requires sort { top_has_sort (claim_tree claim.now) ≡ true }
    ensures head { IfOk result (λ n. node_head n ≡ claim_head (claim_tree claim.now)) }
    ensures numbers { IfOk result (λ n. numbers n ≡ ids.now) }
{
    match claim.shape() {
        Shape::Variable(_) | Shape::OldVariable(_) | Shape::LetSymbol(_) => unreachable!(),
        Shape::Literal(z) => Ok(Node::Lit(z)),
        Shape::Truth(b) => Ok(Node::truth(b)),
        Shape::Bound(n) => Ok(Node::Bound(n)),
        Shape::Unary(op, _) => Ok(Node::unary(op, ids[0])),
        Shape::Binary(op, _, _) => Ok(Node::binary(op, ids[0], ids[1])),
        Shape::Update(_, _, _) => Ok(Node::Update(ids[0], ids[1], ids[2])),
        Shape::Quantified(q, _, _, _) => Ok(Node::quantified(q, ids[0], ids[1], ids[2])),
        Shape::Sequence(ty, _) => sequence_over(alloc, ty, ids),
        Shape::Record(n, _) => Ok(Node::Rec(n, Items::from_slice(alloc, ids)?)),
    }
}

fn sequence_over(alloc: Global, ty: &Ty, ids: &[usize]) -> Result<Node, NoMemory>
    requires { has_sort (value_type ty.now) ≡ true }
    ensures head { IfOk result (λ n. node_head n ≡ head (listed (sequence_of (value_type ty.now)) no_trees)) }
    ensures numbers { IfOk result (λ n. numbers n ≡ ids.now) }
{
    let sort = sort_of(alloc, ty)?;
    Ok(Node::SeqLit(sort, Items::from_slice(alloc, ids)?))
}
