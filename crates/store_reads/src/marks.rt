ghost use Rattle.std.specs.Prelude.{◌≡◌, ◌<◌, ◌≤◌, ◌&&◌, ◌||◌, length, OnOk};
ghost use Rattle.std.specs.Option.{is_some};
ghost use Rattle.term_nodes.specs.Node.{numbers};
ghost use Rattle.term_store.specs.Store.{tree_at, IsPlaced};
ghost use Rattle.store_reads.specs.Written.{is_written_sequence, is_written_record, top_stays, is_append, is_read, reads_written};
ghost use Rattle.store_reads.specs.Marks.{IsMarkOf, AreMarked, HaveMarks, all_marked, IsMarkedPart, IsPartWithRead, outer_numbers};

use crate::NoMemory;
use slang_values::{Binary, Unary};
use sqlite_items::Items;
use term_nodes::{Node, NodeShape};
use term_store::TermStore;

/// What is known of a term: that there is nothing to reduce in it, and that it has a read that depends on conditions, outside the
/// bodies of quantifiers.
#[derive(Clone, Copy)]
pub struct Mark {
    pub stays: bool,
    pub reads: bool,
}

/// A part of a term.
#[derive(Clone, Copy)]
pub struct Part {
    pub place: usize,
    pub id: usize,
}

/// Whether there is nothing to reduce in any of these terms.
fn all_stay(marks: &[Mark], ids: &[usize]) -> bool
    requires { HaveMarks marks.now ids.now }
    ensures { result ≡ all_marked marks.now ids.now }
{
    for id in ids {
        if !marks[*id].stays {
            return false;
        }
    }
    true
}

/// The first of these terms that has a read.
fn first_with_read(marks: &[Mark], ids: &[usize]) -> Option<Part>
    requires { HaveMarks marks.now ids.now }
    ensures { IsMarkedPart marks.now ids.now result }
{
    for place in 0..ids.len() {
        let id = ids[place];
        if marks[id].reads {
            return Some(Part { place, id });
        }
    }
    None
}

/// Whether there is nothing to reduce in any part of the node.
fn parts_stay(marks: &[Mark], node: &Node) -> bool
    requires { HaveMarks marks.now (numbers node.now) }
    ensures { result ≡ all_marked marks.now (numbers node.now) }
{
    match node.shape() {
        NodeShape::Literal(_) | NodeShape::Truth(_) | NodeShape::Symbol(_) | NodeShape::Bound(_) =>
            true,
        NodeShape::Unary(_, a) => all_stay(marks, &[a]),
        NodeShape::Binary(_, a, b) => all_stay(marks, &[a, b]),
        NodeShape::Update(a, i, x) => all_stay(marks, &[a, i, x]),
        NodeShape::Quantified(_, low, high, body) => all_stay(marks, &[low, high, body]),
        NodeShape::Sequence(_, parts) => all_stay(marks, parts),
        NodeShape::Record(_, parts) => all_stay(marks, parts),
    }
}

/// The first part outside the bodies of quantifiers that has a read.
fn outer_part_with_read(marks: &[Mark], node: &Node) -> Option<Part>
    requires { HaveMarks marks.now (numbers node.now) }
    ensures { IsMarkedPart marks.now (outer_numbers node.now) result }
{
    match node.shape() {
        NodeShape::Literal(_) | NodeShape::Truth(_) | NodeShape::Symbol(_) | NodeShape::Bound(_) =>
            None,
        NodeShape::Unary(_, a) => first_with_read(marks, &[a]),
        NodeShape::Binary(_, a, b) => first_with_read(marks, &[a, b]),
        NodeShape::Update(a, i, x) => first_with_read(marks, &[a, i, x]),
        NodeShape::Quantified(_, low, high, _) => first_with_read(marks, &[low, high]),
        NodeShape::Sequence(_, parts) => first_with_read(marks, parts),
        NodeShape::Record(_, parts) => first_with_read(marks, parts),
    }
}

/// Whether the term is an update, an append or a list of elements.
pub fn is_written_sequence(store: &TermStore, id: usize) -> bool
    requires { id < length store.now }
    ensures { result ≡ is_written_sequence (tree_at store.now id) }
{
    match store.view(id).shape() {
        NodeShape::Literal(_) | NodeShape::Truth(_) | NodeShape::Symbol(_) | NodeShape::Bound(_) =>
            false,
        NodeShape::Unary(_, _) | NodeShape::Quantified(_, _, _, _) | NodeShape::Record(_, _) =>
            false,
        NodeShape::Binary(op, _, _) => is_append(op),
        NodeShape::Update(_, _, _) | NodeShape::Sequence(_, _) => true,
    }
}

fn is_append(op: Binary) -> bool
    ensures { result ≡ is_append op }
{
    match op {
        Binary::Append => true,
        Binary::Add | Binary::Sub | Binary::Mul | Binary::Div | Binary::Rem | Binary::And => false,
        Binary::Or | Binary::Imply | Binary::Eq | Binary::Lt | Binary::Le | Binary::Read => false,
    }
}

fn is_read(op: Binary) -> bool
    ensures { result ≡ is_read op }
{
    match op {
        Binary::Read => true,
        Binary::Add | Binary::Sub | Binary::Mul | Binary::Div | Binary::Rem | Binary::And => false,
        Binary::Or | Binary::Imply | Binary::Eq | Binary::Lt | Binary::Le | Binary::Append => false,
    }
}

fn is_written_record(store: &TermStore, id: usize) -> bool
    requires { id < length store.now }
    ensures { result ≡ is_written_record (tree_at store.now id) }
{
    match store.view(id).shape() {
        NodeShape::Literal(_) | NodeShape::Truth(_) | NodeShape::Symbol(_) | NodeShape::Bound(_) =>
            false,
        NodeShape::Unary(_, _) | NodeShape::Quantified(_, _, _, _) | NodeShape::Binary(_, _, _) =>
            false,
        NodeShape::Update(_, _, _) | NodeShape::Sequence(_, _) => false,
        NodeShape::Record(_, _) => true,
    }
}

/// Whether the term is no size and no field of what is written out.
fn top_stays(store: &TermStore, id: usize) -> bool
    requires { id < length store.now }
    ensures { result ≡ top_stays (tree_at store.now id) }
{
    match store.view(id).shape() {
        NodeShape::Unary(op, a) => match op {
            Unary::Neg | Unary::Not => true,
            Unary::Size => !is_written_sequence(store, a),
            Unary::Field(_) => !is_written_record(store, a),
        },
        NodeShape::Literal(_) | NodeShape::Truth(_) | NodeShape::Symbol(_) | NodeShape::Bound(_) =>
            true,
        NodeShape::Binary(_, _, _) | NodeShape::Update(_, _, _) => true,
        NodeShape::Quantified(_, _, _, _) => true,
        NodeShape::Sequence(_, _) | NodeShape::Record(_, _) => true,
    }
}

/// Whether the term is a read of what is written out.
fn reads_written(store: &TermStore, id: usize) -> bool
    requires { id < length store.now }
    ensures { result ≡ reads_written (tree_at store.now id) }
{
    match store.view(id).shape() {
        NodeShape::Binary(op, a, _) => is_read(op) && is_written_sequence(store, a),
        NodeShape::Literal(_) | NodeShape::Truth(_) | NodeShape::Symbol(_) | NodeShape::Bound(_) =>
            false,
        NodeShape::Unary(_, _) | NodeShape::Update(_, _, _) => false,
        NodeShape::Quantified(_, _, _, _) => false,
        NodeShape::Sequence(_, _) | NodeShape::Record(_, _) => false,
    }
}

/// The first part of a term, outside the bodies of quantifiers, that has a read.
pub fn part_with_read(store: &TermStore, marks: &[Mark], id: usize) -> Option<Part>
    requires parts { id ≤ length marks.now }
    requires within { id < length store.now }
    requires marked { AreMarked store.now marks.now }
    ensures { IsPartWithRead store.now id result }
{
    outer_part_with_read(marks, store.view(id))
}

/// A mark, from what is known of the top and of the parts.
fn joined_mark(top_stays: bool, parts_stay: bool, own: bool, part: Option<Part>) -> Mark
    ensures { result ≡ record { stays = top_stays && parts_stay; reads = own || is_some part } }
{
    Mark {
        stays: top_stays && parts_stay,
        reads: own || part.is_some(),
    }
}

/// The mark of the first term that has none.
fn mark_of(store: &TermStore, marks: &[Mark], id: usize) -> Mark
    requires marked { AreMarked store.now marks.now }
    requires next { id ≡ length marks.now }
    requires within { id < length store.now }
    ensures { IsMarkOf (tree_at store.now id) result }
{
    let top = top_stays(store, id);
    let parts = parts_stay(marks, store.view(id));
    let own = reads_written(store, id);
    let part = part_with_read(store, marks, id);
    joined_mark(top, parts, own, part)
}

/// Marks all terms that have no mark yet.
pub fn mark_all(store: &TermStore, marks: &mut Items<Mark>) -> Result<(), NoMemory>
    requires { AreMarked store.now marks.old }
    ensures marked { AreMarked store.now marks.new }
    ensures all { OnOk result (length marks.new ≡ length store.now) }
{
    for id in marks.len()..store.len() {
        let mark = mark_of(store, marks.as_slice(), id);
        marks.push(mark)?;
    }
    Ok(())
}
