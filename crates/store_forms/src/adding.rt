ghost use Rattle.std.specs.Prelude.{◌≡◌, ◌<◌, length, IfOk};
ghost use Rattle.slang_values.specs.Tree.{literal};
ghost use Rattle.term_store.specs.Store.{Holds, Grows};

use crate::NoMemory;
use store_reads::add;
use term_nodes::Node;
use term_store::TermStore;

pub fn add_literal(store: &mut TermStore, z: i128) -> Result<usize, NoMemory>
    ensures number { IfOk result (λ k. Holds store.new k (literal z)) }
    ensures grows { Grows store.old store.new }
{
    add(store, Node::Lit(z))
}
