ghost use Rattle.std.specs.Prelude.{◌≡◌, ◌<◌, length, map};
ghost use Rattle.std.specs.List.{All};
ghost use Rattle.slang_values.specs.Tree.{listed, record_of};
ghost use Rattle.term_trees.specs.Term.{sort_type, trees_of};
ghost use Rattle.term_nodes.specs.Node.{shape_tree, shape_numbers};
ghost use Rattle.term_sorts.specs.Types.{types_of, record_types, type_value};
ghost use Rattle.term_store.specs.Store.{stored, tree_at};
ghost use Rattle.sorted_sequents.specs.Fitting.{fits_one, fits_two, fits_update, fits_range, each_has, have, fits};

use crate::sorts::{has_field, is_known, is_same, is_sequence, is_sequence_of, type_of_sort};
use slang_values::{Binary, Unary};
use sqlite_items::{Items, at};
use store_formulas::type_of;
use term_nodes::NodeShape;
use term_sorts::TermType;
use term_store::TermStore;
use term_trees::Sort;

/// Whether an operator fits a part of the type.
fn fits_one(records: &[Items<Sort>], op: Unary, a: TermType<'_>) -> bool
    ensures { result ≡ fits_one (record_types records.now) op (type_value a.entry) }
{
    match op {
        Unary::Neg => a.is_number(),
        Unary::Not => a.is_truth(),
        Unary::Size => is_sequence(a),
        Unary::Field(place) => has_field(records, place, a),
    }
}

/// Whether an operator fits parts of the types.
fn fits_two(op: Binary, a: TermType<'_>, b: TermType<'_>) -> bool
    ensures { result ≡ fits_two op (type_value a.entry) (type_value b.entry) }
{
    match op {
        Binary::Add | Binary::Sub | Binary::Mul | Binary::Div | Binary::Rem => a.is_number()
            && b.is_number(),
        Binary::Lt | Binary::Le => a.is_number() && b.is_number(),
        Binary::And | Binary::Or | Binary::Imply => a.is_truth() && b.is_truth(),
        Binary::Eq => is_same(a, b),
        Binary::Read => is_sequence(a) && b.is_number(),
        Binary::Append => is_sequence_of(a, b),
    }
}

fn fits_update(a: TermType<'_>, i: TermType<'_>, x: TermType<'_>) -> bool
    ensures { result ≡ fits_update (type_value a.entry) (type_value i.entry) (type_value x.entry) }
{
    is_sequence_of(a, x) && i.is_number()
}

fn fits_range(low: TermType<'_>, high: TermType<'_>, body: TermType<'_>) -> bool
    ensures { result ≡ fits_range (type_value low.entry) (type_value high.entry) (type_value body.entry) }
{
    low.is_number() && high.is_number() && body.is_truth()
}

/// Whether each of the terms is of the sort.
fn each_has(
    symbols: &[Sort],
    records: &[Items<Sort>],
    store: &TermStore,
    sort: &Sort,
    ids: &[usize],
) -> bool
    requires { All (λ k. k < length store.now) ids.now }
    ensures { result ≡ each_has (record_types records.now) (types_of symbols.now) (sort_type sort.now) (trees_of (map (tree_at store.now) ids.now)) }
{
    for id in ids {
        if !is_same(type_of(symbols, records, store, *id), type_of_sort(sort)) {
            return false;
        }
    }
    true
}

/// Whether the terms are of the sorts, one after the other.
fn have(
    symbols: &[Sort],
    records: &[Items<Sort>],
    store: &TermStore,
    sorts: &[Sort],
    ids: &[usize],
) -> bool
    requires { All (λ k. k < length store.now) ids.now }
    ensures { result ≡ have (record_types records.now) (types_of symbols.now) (map sort_type sorts.now) (trees_of (map (tree_at store.now) ids.now)) }
{
    if sorts.len() != ids.len() {
        return false;
    }
    for place in 0..ids.len() {
        let kind = type_of(symbols, records, store, ids[place]);
        if !is_same(kind, type_of_sort(&sorts[place])) {
            return false;
        }
    }
    true
}

/// Whether the terms are the fields of a record.
fn are_fields(
    symbols: &[Sort],
    records: &[Items<Sort>],
    store: &TermStore,
    number: u32,
    ids: &[usize],
) -> bool
    requires { All (λ k. k < length store.now) ids.now }
    ensures { result ≡ fits (record_types records.now) (types_of symbols.now) (listed (record_of number) (trees_of (map (tree_at store.now) ids.now))) }
{
    match at(records, number as usize) {
        Some(sorts) => have(symbols, records, store, sorts.as_slice(), ids),
        None => false,
    }
}

/// Whether the operator at the top of a term fits the types of its parts.
pub fn fits(
    symbols: &[Sort],
    records: &[Items<Sort>],
    store: &TermStore,
    shape: NodeShape<'_>,
) -> bool
    requires { All (λ k. k < length store.now) (shape_numbers shape) }
    ensures { result ≡ fits (record_types records.now) (types_of symbols.now) (shape_tree (stored store.now) shape.entry) }
{
    match shape {
        NodeShape::Literal(_) | NodeShape::Truth(_) | NodeShape::Bound(_) => true,
        NodeShape::Symbol(n) => (n as usize) < symbols.len(),
        NodeShape::Unary(op, a) => fits_one(records, op, type_of(symbols, records, store, a)),
        NodeShape::Binary(op, a, b) => {
            let left = type_of(symbols, records, store, a);
            fits_two(op, left, type_of(symbols, records, store, b))
        }
        NodeShape::Update(a, i, x) => {
            let whole = type_of(symbols, records, store, a);
            let place = type_of(symbols, records, store, i);
            fits_update(whole, place, type_of(symbols, records, store, x))
        }
        NodeShape::Quantified(_, low, high, body) => {
            let from = type_of(symbols, records, store, low);
            let to = type_of(symbols, records, store, high);
            fits_range(from, to, type_of(symbols, records, store, body))
        }
        NodeShape::Sequence(sort, parts) => {
            is_known(records, sort) && each_has(symbols, records, store, sort, parts)
        }
        NodeShape::Record(number, parts) => are_fields(symbols, records, store, number, parts),
    }
}
