ghost use Rattle.std.specs.Prelude.{◌≡◌, ◌<◌, ◌≤◌, ◌+◌, ◌^◌, length, OnOk, OnErr};
ghost use Rattle.slang_values.specs.Tree.{quantified};
ghost use Rattle.slang_values.specs.declared.operators.Quantifier.{Quantifier};
ghost use Rattle.slang_values.specs.Measure.{node_count};
ghost use Rattle.instance_rules.specs.Instances.{open_quantified, opened};
ghost use Rattle.term_store.specs.Store.{tree_at, Grows};
ghost use Rattle.term_store.specs.Sequent.{sequent_at, IsSequentWithin};
ghost use Rattle.store_openings.specs.Ranges.{IsAllOf, IsRangeOf};
ghost use Rattle.store_openings.specs.Opened.{IsOpenedBy, IsLeftBy};
ghost use Rattle.term_nodes.specs.declared.node.NodeShape.{NodeShape};
ghost use Rattle.store_openings.specs.Tables.{AreTables};

use crate::NoMemory;
use crate::tables::{Tables, substitute_first};
use slang_values::{Binary, Quantifier};
use std::alloc::Global;
use store_reads::{add, add_binary};
use term_nodes::{Node, NodeShape};
use term_store::{IdSequent, TermStore};
use term_trees::Sort;

/// The parts of a quantifier, as numbers.
#[derive(Clone, Copy)]
pub struct Range {
    pub low: usize,
    pub high: usize,
    pub body: usize,
}

/// The parts of an All, where the term is one.
pub fn all_in(shape: NodeShape<'_>) -> Option<Range>
    ensures { IsAllOf shape.entry result }
{
    match shape {
        NodeShape::Quantified(q, low, high, body) => range_of(q, low, high, body),
        NodeShape::Literal(_) | NodeShape::Truth(_) | NodeShape::Symbol(_) | NodeShape::Bound(_) =>
            None,
        NodeShape::Unary(_, _) | NodeShape::Binary(_, _, _) | NodeShape::Update(_, _, _) => None,
        NodeShape::Sequence(_, _) | NodeShape::Record(_, _) => None,
    }
}

fn range_of(q: Quantifier, low: usize, high: usize, body: usize) -> Option<Range>
    ensures { IsAllOf (NodeShape.Quantified q low high body) result }
{
    match q {
        Quantifier::All => Some(Range { low, high, body }),
        Quantifier::Exists => None,
    }
}

/// The range of a term that is an All.
pub fn range_at(store: &TermStore, goal: usize) -> Option<Range>
    requires { goal < length store.now }
    ensures { IsRangeOf store.now goal result }
{
    all_in(store.view(goal).shape())
}

/// The body of the goal in place of the goal, at a new symbol, of which it becomes a fact that it lies in the range.
fn open_once(
    alloc: Global,
    store: &mut TermStore,
    tables: &mut Tables,
    sequent: &mut IdSequent,
    range: Range,
) -> Result<(), NoMemory>
    requires within { IsSequentWithin store.old sequent.old }
    requires low { range.low < length store.old }
    requires high { range.high < length store.old }
    requires body { range.body < length store.old }
    requires room { length sequent.old.sorts < 2 ^ 32 }
    requires tables { AreTables store.old tables.old }
    ensures opened { OnOk result (sequent_at store.new sequent.new ≡ open_quantified Quantifier.All (tree_at store.old range.low) (tree_at store.old range.high) (tree_at store.old range.body) (sequent_at store.old sequent.old)) }
    ensures sorts { OnOk result (length sequent.new.sorts ≡ length sequent.old.sorts + 1) }
    ensures within { IsSequentWithin store.new sequent.new }
    ensures grows { Grows store.old store.new }
    ensures tables { AreTables store.new tables.new }
{
    let symbol = add(store, Node::Symbol(sequent.sorts.len() as u32))?;
    let above = add_binary(store, Binary::Le, range.low, symbol)?;
    let below = add_binary(store, Binary::Lt, symbol, range.high)?;
    let goal = substitute_first(alloc, store, tables, range.body, symbol)?;
    set_opened(sequent, above, below, goal)
}

/// One symbol more, two facts more, and another goal.
fn set_opened(
    sequent: &mut IdSequent,
    above: usize,
    below: usize,
    goal: usize,
) -> Result<(), NoMemory>
    ensures opened { OnOk result (IsOpenedBy above below goal sequent.old sequent.new) }
    ensures err { OnErr result (IsLeftBy above sequent.old sequent.new) }
{
    sequent.sorts.push(Sort::Z)?;
    sequent.facts.push(above)?;
    sequent.facts.push(below)?;
    sequent.goal = goal;
    Ok(())
}

/// Opens the goal, as long as it is an All.
pub fn open(
    alloc: Global,
    store: &mut TermStore,
    tables: &mut Tables,
    sequent: &mut IdSequent,
) -> Result<(), NoMemory>
    requires within { IsSequentWithin store.old sequent.old }
    requires room { length sequent.old.sorts + node_count (tree_at store.old sequent.old.goal) ≤ 2 ^ 32 }
    requires tables { AreTables store.old tables.old }
    ensures opened { OnOk result (sequent_at store.new sequent.new ≡ opened (sequent_at store.old sequent.old)) }
    ensures within { IsSequentWithin store.new sequent.new }
    ensures grows { Grows store.old store.new }
    ensures tables { AreTables store.new tables.new }
{
    while let Some(range) = range_at(store, sequent.goal) {
        open_once(alloc, store, tables, sequent, range)?;
    }
    Ok(())
}
