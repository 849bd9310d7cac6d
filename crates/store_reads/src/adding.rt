ghost use Rattle.std.specs.Prelude.{◌≡◌, ◌<◌, length, IfOk};
ghost use Rattle.slang_values.specs.Tree.{literal, unary, binary};
ghost use Rattle.term_nodes.specs.Node.{node_tree, numbers};
ghost use Rattle.term_store.specs.Store.{stored, tree_at, Holds, AreWithin, Grows};

use crate::NoMemory;
use slang_values::{Binary, Unary};
use term_nodes::Node;
use term_store::TermStore;

/// The number of the node's tree.
pub fn add(store: &mut TermStore, node: Node) -> Result<usize, NoMemory>
    requires { AreWithin store.old (numbers node) }
    ensures number { IfOk result (λ k. Holds store.new k (node_tree (stored store.old) node)) }
    ensures grows { Grows store.old store.new }
{
    store.add_node(node)
}

pub fn add_literal(store: &mut TermStore, z: i128) -> Result<usize, NoMemory>
    ensures number { IfOk result (λ k. Holds store.new k (literal z)) }
    ensures grows { Grows store.old store.new }
{
    add(store, Node::Lit(z))
}

pub fn add_unary(store: &mut TermStore, op: Unary, a: usize) -> Result<usize, NoMemory>
    requires { a < length store.old }
    ensures number { IfOk result (λ k. Holds store.new k (unary op (tree_at store.old a))) }
    ensures grows { Grows store.old store.new }
{
    add(store, Node::unary(op, a))
}

pub fn add_binary(store: &mut TermStore, op: Binary, a: usize, b: usize) -> Result<usize, NoMemory>
    requires left { a < length store.old }
    requires right { b < length store.old }
    ensures number { IfOk result (λ k. Holds store.new k (binary op (tree_at store.old a) (tree_at store.old b))) }
    ensures grows { Grows store.old store.new }
{
    add(store, Node::binary(op, a, b))
}
