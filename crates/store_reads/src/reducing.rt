ghost use Rattle.std.specs.Prelude.{◌≡◌, ◌<◌, length, map, IfOk};
ghost use Rattle.std.specs.List.{All};
ghost use Rattle.term_nodes.specs.Node.{node_tree, numbers};
ghost use Rattle.term_store.specs.Store.{stored, tree_at, Holds, AreWithin, AreTreesOf, Grows};
ghost use Rattle.read_rules.specs.Reduced.{size_tree, field_tree, unary_tree, reduced};
ghost use Rattle.store_reads.specs.Written.{top_reduced};
ghost use Rattle.store_reads.specs.Marks.{AreMarked};
ghost use Rattle.store_reads.specs.Reducing.{IsSizedAs, IsFieldOf};

use crate::NoMemory;
use crate::adding::{add, add_binary, add_literal, add_unary};
use crate::marks::Mark;
use crate::nodes::{over_parts, parts_of};
use slang_values::{Binary, Unary};
use sqlite_items::at;
use std::alloc::Global;
use term_nodes::{Node, NodeShape};
use term_store::TermStore;

/// How the size of a sequence is known.
#[derive(Clone, Copy)]
pub enum SizedAs {
    /// As that of another sequence.
    Same(usize),
    /// As one more than that of another.
    OneMore(usize),
    /// As a count of elements.
    Count(usize),
    Unknown,
}

fn sized_as(shape: NodeShape<'_>) -> SizedAs
    ensures { IsSizedAs shape.entry result }
{
    match shape {
        NodeShape::Literal(_) | NodeShape::Truth(_) | NodeShape::Symbol(_) | NodeShape::Bound(_) =>
            SizedAs::Unknown,
        NodeShape::Unary(_, _) | NodeShape::Quantified(_, _, _, _) | NodeShape::Record(_, _) =>
            SizedAs::Unknown,
        NodeShape::Binary(op, a, _) => match op {
            Binary::Append => SizedAs::OneMore(a),
            Binary::Add | Binary::Sub | Binary::Mul | Binary::Div | Binary::Rem | Binary::And =>
                SizedAs::Unknown,
            Binary::Or | Binary::Imply | Binary::Eq | Binary::Lt | Binary::Le | Binary::Read =>
                SizedAs::Unknown,
        },
        NodeShape::Update(a, _, _) => SizedAs::Same(a),
        NodeShape::Sequence(_, parts) => SizedAs::Count(parts.len()),
    }
}

/// The number of the size of a reduced sequence.
fn size_of(store: &mut TermStore, a: usize) -> Result<usize, NoMemory>
    requires { a < length store.old }
    ensures number { IfOk result (λ k. Holds store.new k (size_tree (tree_at store.old a))) }
    ensures grows { Grows store.old store.new }
{
    match sized_as(store.view(a).shape()) {
        SizedAs::Same(s) => size_of(store, s),
        SizedAs::OneMore(s) => {
            let below = size_of(store, s)?;
            let one = add_literal(store, 1)?;
            add_binary(store, Binary::Add, below, one)
        }
        SizedAs::Count(n) => add_literal(store, n as i128),
        SizedAs::Unknown => add_unary(store, Unary::Size, a),
    }
}

/// The written field, where there is one.
fn written_field(shape: NodeShape<'_>, k: u32) -> Option<usize>
    ensures { IsFieldOf shape.entry k result }
{
    match shape {
        NodeShape::Record(_, parts) => at(parts, k as usize).copied(),
        NodeShape::Literal(_) | NodeShape::Truth(_) | NodeShape::Symbol(_) | NodeShape::Bound(_) =>
            None,
        NodeShape::Unary(_, _) | NodeShape::Binary(_, _, _) | NodeShape::Update(_, _, _) => None,
        NodeShape::Quantified(_, _, _, _) | NodeShape::Sequence(_, _) => None,
    }
}

/// The number of a field of a reduced record.
fn field_of(store: &mut TermStore, a: usize, k: u32) -> Result<usize, NoMemory>
    requires { a < length store.old }
    ensures number { IfOk result (λ r. Holds store.new r (field_tree k (tree_at store.old a))) }
    ensures grows { Grows store.old store.new }
{
    match written_field(store.view(a).shape(), k) {
        Some(part) => Ok(part),
        None => add_unary(store, Unary::Field(k), a),
    }
}

/// The number of a term over one part, which is reduced.
fn reduced_unary(store: &mut TermStore, op: Unary, a: usize) -> Result<usize, NoMemory>
    requires { a < length store.old }
    ensures number { IfOk result (λ k. Holds store.new k (unary_tree op (tree_at store.old a))) }
    ensures grows { Grows store.old store.new }
{
    match op {
        Unary::Neg | Unary::Not => add_unary(store, op, a),
        Unary::Size => size_of(store, a),
        Unary::Field(k) => field_of(store, a, k),
    }
}

/// The number of a node whose parts are reduced, with its top reduced.
fn add_reduced(store: &mut TermStore, node: Node) -> Result<usize, NoMemory>
    requires { AreWithin store.old (numbers node) }
    ensures number { IfOk result (λ k. Holds store.new k (top_reduced (node_tree (stored store.old) node))) }
    ensures grows { Grows store.old store.new }
{
    match node.shape() {
        NodeShape::Unary(op, a) => reduced_unary(store, op, a),
        NodeShape::Literal(_) | NodeShape::Truth(_) | NodeShape::Symbol(_) | NodeShape::Bound(_) =>
            add(store, node),
        NodeShape::Binary(_, _, _) | NodeShape::Update(_, _, _) => add(store, node),
        NodeShape::Quantified(_, _, _, _) => add(store, node),
        NodeShape::Sequence(_, _) | NodeShape::Record(_, _) => add(store, node),
    }
}

/// The number of the reduced term. A term in which there is nothing to reduce costs nothing where its mark says so.
#[cycle(reduce)]
pub fn reduce(
    alloc: Global,
    store: &mut TermStore,
    marks: &[Mark],
    id: usize,
) -> Result<usize, NoMemory>
    requires within { id < length store.old }
    requires marked { AreMarked store.old marks.now }
    ensures number { IfOk result (λ k. Holds store.new k (reduced (tree_at store.old id))) }
    ensures grows { Grows store.old store.new }
{
    if id < marks.len() && marks[id].stays {
        return Ok(id);
    }
    let parts = parts_of(alloc, store.view(id))?;
    let ids = reduce_all(alloc, store, marks, parts.as_slice(), id)?;
    let node = over_parts(alloc, store.view(id), ids.as_slice())?;
    add_reduced(store, node)
}

/// The numbers of reduced terms, which stand below that number.
#[cycle(reduce)]
fn reduce_all(
    alloc: Global,
    store: &mut TermStore,
    marks: &[Mark],
    ids: &[usize],
    bound: usize,
) -> Result<Vec<usize>, NoMemory>
    requires below { All (λ k. k < bound) ids.now }
    requires within { bound < length store.old }
    requires marked { AreMarked store.old marks.now }
    ensures numbers { IfOk result (λ v. AreTreesOf store.new v.items (map (λ k. reduced (tree_at store.old k)) ids.now)) }
    ensures grows { Grows store.old store.new }
{
    let mut reduced = Vec::new(alloc);
    for id in ids {
        let number = reduce(alloc, store, marks, *id)?;
        reduced.push(number)?;
    }
    Ok(reduced)
}
