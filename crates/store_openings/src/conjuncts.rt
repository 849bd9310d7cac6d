ghost use Rattle.std.specs.Prelude.{◌≡◌, ◌<◌, ◌++◌, map, length, IfOk, OnOk};
ghost use Rattle.std.specs.List.{flat_map};
ghost use Rattle.term_nodes.specs.declared.node.NodeShape.{NodeShape};
ghost use Rattle.slang_values.specs.declared.operators.Binary.{Binary};
ghost use Rattle.instance_rules.specs.Instances.{conjuncts, with_conjuncts};
ghost use Rattle.term_store.specs.Store.{tree_at, AreWithin, AreTreesOf};
ghost use Rattle.term_store.specs.Sequent.{sequent_at, IsSequentWithin};
ghost use Rattle.store_openings.specs.Ranges.{IsAndOf, AreSidesOf};

use crate::NoMemory;
use slang_values::Binary;
use sqlite_items::Items;
use std::alloc::Global;
use term_nodes::NodeShape;
use term_store::{IdSequent, TermStore};

/// Both sides of an And, as numbers.
#[derive(Clone, Copy)]
pub struct Sides {
    pub left: usize,
    pub right: usize,
}

fn sides_in(shape: NodeShape<'_>) -> Option<Sides>
    ensures { IsAndOf shape.entry result }
{
    match shape {
        NodeShape::Binary(op, left, right) => sides_of(op, left, right),
        NodeShape::Literal(_) | NodeShape::Truth(_) | NodeShape::Symbol(_) | NodeShape::Bound(_) =>
            None,
        NodeShape::Unary(_, _) | NodeShape::Update(_, _, _) => None,
        NodeShape::Quantified(_, _, _, _) => None,
        NodeShape::Sequence(_, _) | NodeShape::Record(_, _) => None,
    }
}

fn sides_of(op: Binary, left: usize, right: usize) -> Option<Sides>
    ensures { IsAndOf (NodeShape.Binary op left right) result }
{
    match op {
        Binary::And => Some(Sides { left, right }),
        Binary::Add | Binary::Sub | Binary::Mul | Binary::Div | Binary::Rem | Binary::Or => None,
        Binary::Imply | Binary::Eq | Binary::Lt | Binary::Le | Binary::Read | Binary::Append =>
            None,
    }
}

/// The sides of a term that is an And.
fn sides_at(store: &TermStore, id: usize) -> Option<Sides>
    requires { id < length store.now }
    ensures { AreSidesOf store.now id result }
{
    sides_in(store.view(id).shape())
}

/// Adds the parts of an And, at every depth, from the left.
fn add_conjuncts(store: &TermStore, all: &mut Items<usize>, id: usize) -> Result<(), NoMemory>
    requires within { id < length store.now }
    requires all { AreWithin store.now all.old }
    ensures conjuncts { OnOk result (map (tree_at store.now) all.new ≡ map (tree_at store.now) all.old ++ conjuncts (tree_at store.now id)) }
    ensures all { AreWithin store.now all.new }
{
    match sides_at(store, id) {
        Some(sides) => {
            add_conjuncts(store, all, sides.left)?;
            add_conjuncts(store, all, sides.right)
        }
        None => {
            all.push(id)?;
            Ok(())
        }
    }
}

/// The parts of all facts, in order.
fn all_conjuncts(
    alloc: Global,
    store: &TermStore,
    facts: &[usize],
) -> Result<Items<usize>, NoMemory>
    requires { AreWithin store.now facts.now }
    ensures { IfOk result (λ ks. AreTreesOf store.now ks (flat_map conjuncts (map (tree_at store.now) facts.now))) }
{
    let mut all = Items::new(alloc);
    for place in 0..facts.len() {
        add_conjuncts(store, &mut all, facts[place])?;
    }
    Ok(all)
}

/// Takes the facts of a sequent apart.
pub fn take_facts_apart(
    alloc: Global,
    store: &TermStore,
    sequent: &mut IdSequent,
) -> Result<(), NoMemory>
    requires within { IsSequentWithin store.now sequent.old }
    ensures apart { OnOk result (sequent_at store.now sequent.new ≡ with_conjuncts (sequent_at store.now sequent.old)) }
    ensures within { IsSequentWithin store.now sequent.new }
    ensures sorts { sequent.new.sorts ≡ sequent.old.sorts }
{
    sequent.facts = all_conjuncts(alloc, store, sequent.facts.as_slice())?;
    Ok(())
}
