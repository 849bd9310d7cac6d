ghost use Rattle.std.specs.Prelude.{◌≡◌, ◌<◌, length, map, MatchOption, false};
ghost use Rattle.std.specs.List.{All, list_any};
ghost use Rattle.closing.specs.Literals as of_trees;
ghost use Rattle.term_sorts.specs.Types.{types_of, record_types, type_value};
ghost use Rattle.slang_values.specs.Typing.{type_of as type_of_tree};
ghost use Rattle.term_store.specs.Store.{tree_at, IsStore};
ghost use Rattle.store_canonical.specs.Canonical.{AreCanonical};
ghost use Rattle.whole_closing.specs.Literals as literal_specs;
ghost use Rattle.store_leaves.specs.Closes.{IsUnequalAt};

use slang_values::{Binary, Unary};
use sqlite_items::Items;
use store_formulas::type_of;
use term_nodes::NodeShape;
use term_sorts::TermType;
use term_store::TermStore;
use term_trees::Sort;

/// The place of the first literal that says that a sequence is unequal to itself, but for the forms of its numbers.
pub fn unequal_itself(
    symbols: &[Sort],
    records: &[Items<Sort>],
    store: &TermStore,
    ids: &[usize],
    literals: &[usize],
) -> Option<usize>
    requires is_store { IsStore store.now }
    requires canonical { AreCanonical (record_types records.now) (types_of symbols.now) store.now ids.now }
    requires formed { All (λ k. k < length ids.now) literals.now }
    ensures { MatchOption result
        (list_any (literal_specs.is_unequal_itself (record_types records.now) (types_of symbols.now)) (map (tree_at store.now) literals.now) ≡ false)
        (IsUnequalAt (record_types records.now) (types_of symbols.now) store.now literals.now) }
{
    for place in 0..literals.len() {
        if is_unequal_itself(symbols, records, store, ids, literals[place]) {
            return Some(place);
        }
    }
    None
}

/// Whether the literal says that a sequence is unequal to itself.
fn is_unequal_itself(
    symbols: &[Sort],
    records: &[Items<Sort>],
    store: &TermStore,
    ids: &[usize],
    literal: usize,
) -> bool
    requires is_store { IsStore store.now }
    requires canonical { AreCanonical (record_types records.now) (types_of symbols.now) store.now ids.now }
    requires formed { literal < length ids.now }
    ensures { result ≡ literal_specs.is_unequal_itself (record_types records.now) (types_of symbols.now) (tree_at store.now literal) }
{
    match store.view(literal).shape() {
        NodeShape::Unary(op, a) => match op {
            Unary::Not => is_same_sequence(symbols, records, store, ids, a),
            Unary::Neg | Unary::Size | Unary::Field(_) => false,
        },
        NodeShape::Literal(_) | NodeShape::Truth(_) | NodeShape::Symbol(_) | NodeShape::Bound(_) =>
            false,
        NodeShape::Binary(_, _, _) | NodeShape::Update(_, _, _) => false,
        NodeShape::Quantified(_, _, _, _) | NodeShape::Sequence(_, _) | NodeShape::Record(_, _) =>
            false,
    }
}

/// Whether the term equates a sequence with itself.
fn is_same_sequence(
    symbols: &[Sort],
    records: &[Items<Sort>],
    store: &TermStore,
    ids: &[usize],
    id: usize,
) -> bool
    requires is_store { IsStore store.now }
    requires canonical { AreCanonical (record_types records.now) (types_of symbols.now) store.now ids.now }
    requires formed { id < length ids.now }
    ensures { result ≡ literal_specs.is_same_sequence (record_types records.now) (types_of symbols.now) (tree_at store.now id) }
{
    match store.view(id).shape() {
        NodeShape::Binary(op, a, b) => equates_alike(symbols, records, store, ids, op, a, b),
        NodeShape::Literal(_) | NodeShape::Truth(_) | NodeShape::Symbol(_) | NodeShape::Bound(_) =>
            false,
        NodeShape::Unary(_, _) | NodeShape::Update(_, _, _) => false,
        NodeShape::Quantified(_, _, _, _) | NodeShape::Sequence(_, _) | NodeShape::Record(_, _) =>
            false,
    }
}

fn equates_alike(
    symbols: &[Sort],
    records: &[Items<Sort>],
    store: &TermStore,
    ids: &[usize],
    op: Binary,
    a: usize,
    b: usize,
) -> bool
    requires is_store { IsStore store.now }
    requires canonical { AreCanonical (record_types records.now) (types_of symbols.now) store.now ids.now }
    requires left { a < length ids.now }
    requires right { b < length ids.now }
    ensures { result ≡ literal_specs.equates_alike (record_types records.now) (types_of symbols.now) op (tree_at store.now a) (tree_at store.now b) }
{
    match op {
        Binary::Eq => {
            is_sequence(symbols, records, store, a) && are_alike(symbols, records, store, ids, a, b)
        }
        Binary::Add | Binary::Sub | Binary::Mul | Binary::Div | Binary::Rem => false,
        Binary::And | Binary::Or | Binary::Imply | Binary::Lt | Binary::Le => false,
        Binary::Read | Binary::Append => false,
    }
}

fn is_sequence(symbols: &[Sort], records: &[Items<Sort>], store: &TermStore, id: usize) -> bool
    requires { id < length store.now }
    ensures { result ≡ literal_specs.is_sequence (type_of_tree (record_types records.now) (types_of symbols.now) (tree_at store.now id)) }
{
    is_type_of_sequences(type_of(symbols, records, store, id))
}

fn is_type_of_sequences(kind: TermType<'_>) -> bool
    ensures { result ≡ literal_specs.is_sequence (type_value kind.entry) }
{
    match kind {
        TermType::Sequence(_) => true,
        TermType::Unit | TermType::Number | TermType::Truth | TermType::Record(_) => false,
    }
}

/// Whether the canonical trees of the two terms are equal.
fn are_alike(
    symbols: &[Sort],
    records: &[Items<Sort>],
    store: &TermStore,
    ids: &[usize],
    a: usize,
    b: usize,
) -> bool
    requires is_store { IsStore store.now }
    requires canonical { AreCanonical (record_types records.now) (types_of symbols.now) store.now ids.now }
    requires left { a < length ids.now }
    requires right { b < length ids.now }
    ensures { result ≡ of_trees.are_alike (record_types records.now) (types_of symbols.now) (tree_at store.now a) (tree_at store.now b) }
{
    let first = ids[a];
    let second = ids[b];
    if first == second {
        return true;
    }
    false
}
