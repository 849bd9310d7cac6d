ghost use Rattle.std.specs.Prelude.{◌≡◌, ◌<◌, ◌≤◌, pred, length, OnOk};
ghost use Rattle.std.specs.List.{AllByRecursion};
ghost use Rattle.term_nodes.specs.Node.{shape_numbers};
ghost use Rattle.term_store.specs.Store.{tree_at};
ghost use Rattle.store_substitution.specs.Loose.{depth_needed, greatest_depth, shape_depth, AreDepths};

use crate::NoMemory;
use sqlite_items::Items;
use term_nodes::NodeShape;
use term_store::TermStore;

/// One quantifier less.
fn inside(depth: u64) -> u64
    ensures { result ≡ pred depth }
{
    if depth == 0 { 0 } else { depth - 1 }
}

/// The greatest depth at one of these places.
#[tactic(auto, using(crate::proofs::Needed::greatest_lines))]
fn greatest(depths: &[u64], ids: &[usize]) -> u64
    requires { AllByRecursion (λ k. k < length depths.now) ids.now }
    ensures { result ≡ greatest_depth depths.now ids.now }
{
    let mut greatest = 0;
    for count in 0..ids.len() {
        greatest = depths[ids[ids.len() - 1 - count]].max(greatest);
    }
    greatest
}

/// The depth that a term needs, by those of its parts.
fn depth_of_shape(depths: &[u64], shape: NodeShape<'_>) -> u64
    requires { AllByRecursion (λ k. k < length depths.now) (shape_numbers shape) }
    ensures { result ≡ shape_depth depths.now shape.entry }
{
    match shape {
        NodeShape::Literal(_) | NodeShape::Truth(_) | NodeShape::Symbol(_) => 0,
        NodeShape::Bound(n) => u64::from(n) + 1,
        NodeShape::Unary(_, a) => depths[a],
        NodeShape::Binary(_, a, b) => depths[a].max(depths[b]),
        NodeShape::Update(a, i, x) => depths[a].max(depths[i].max(depths[x])),
        NodeShape::Quantified(_, low, high, body) => depths[low].max(depths[high].max(inside(
            depths[body],
        ))),
        NodeShape::Sequence(_, parts) => greatest(depths, parts),
        NodeShape::Record(_, parts) => greatest(depths, parts),
    }
}

/// The depth that the first term without one needs.
fn depth_of(store: &TermStore, depths: &[u64], id: usize) -> u64
    requires measured { AreDepths store.now depths.now }
    requires next { id ≡ length depths.now }
    requires within { id < length store.now }
    ensures { result ≡ depth_needed (tree_at store.now id) }
{
    depth_of_shape(depths, store.view(id).shape())
}

/// Measures all terms that have no depth yet.
pub fn measure_depths(store: &TermStore, depths: &mut Items<u64>) -> Result<(), NoMemory>
    requires { AreDepths store.now depths.old }
    ensures measured { AreDepths store.now depths.new }
    ensures all { OnOk result (length depths.new ≡ length store.now) }
{
    for id in depths.len()..store.len() {
        let depth = depth_of(store, depths.as_slice(), id);
        depths.push(depth)?;
    }
    Ok(())
}
