ghost use Rattle.std.specs.Prelude.{◌≡◌, ℕ, ◌<◌, ◌++◌, length, IfOk, OnOk, true, map, slice_index_or};
ghost use Rattle.std.specs.List.{All};
ghost use Rattle.slang_values.specs.Value.{number_type, same_type};
ghost use Rattle.slang_values.specs.Tree.{binary};
ghost use Rattle.slang_values.specs.Typing.{type_of as type_of_tree};
ghost use Rattle.tree_forms.specs.Form as forms;
ghost use Rattle.term_sorts.specs.Types.{types_of, record_types};
ghost use Rattle.term_store.specs.Store.{tree_at};
ghost use Rattle.store_entries.specs.Entries.{AreEntries};
ghost use Rattle.store_atoms.specs.Views.{rows_at, RowsWithin, AreRows};
ghost use Rattle.closing.specs.Literals.{are_all_narrow};
ghost use Rattle.closing.specs.Rows as row_specs;
ghost use Rattle.store_rows.specs.Said.{relation_rows, AreSides, IsRelationBelow};

use crate::NoMemory;
use crate::forms::difference_of;
use slang_values::{Binary, Unary};
use sqlite_items::Items;
use std::alloc::Global;
use store_atoms::{IdRow, at_least, at_most};
use store_entries::Entry;
use store_formulas::type_of;
use term_nodes::NodeShape;
use term_store::TermStore;
use term_trees::Sort;

/// What a literal says of two numbers.
#[derive(Clone, Copy)]
pub enum Relation {
    AtMost(usize, usize),
    Below(usize, usize),
    Equal(usize, usize),
    /// It says nothing of numbers.
    Nothing,
}

/// The rows of the literals in order.
pub fn rows_of_literals(
    alloc: Global,
    symbols: &[Sort],
    records: &[Items<Sort>],
    store: &TermStore,
    entries: &[Entry],
    literals: &[usize],
) -> Result<Vec<IdRow>, NoMemory>
    requires entries { AreEntries store.now entries.now }
    requires formed { All (λ k. k < length entries.now) literals.now }
    requires narrow { are_all_narrow (map (tree_at store.now) literals.now) ≡ true }
    ensures { IfOk result (λ it. AreRows store.now it.items
        (row_specs.rows_of_literals (record_types records.now) (types_of symbols.now) (map (tree_at store.now) literals.now))) }
{
    let mut rows = Vec::new(alloc);
    for at in 0..literals.len() {
        let literal = id_there(literals, at);
        let relation = relation_of(symbols, records, store, literal);
        push_rows(alloc, store, entries, relation, &mut rows)?;
    }
    Ok(rows)
}

fn id_there(ids: &[usize], at: usize) -> usize
    requires { at < length ids.now }
    ensures { result ≡ slice_index_or ids.now at result }
{
    ids[at]
}

fn relation_of(
    symbols: &[Sort],
    records: &[Items<Sort>],
    store: &TermStore,
    literal: usize,
) -> Relation
    requires within { literal < length store.now }
    requires narrow { forms.is_narrow (tree_at store.now literal) ≡ true }
    ensures rows { row_specs.rows_of_literal (record_types records.now) (types_of symbols.now) (tree_at store.now literal) ≡ relation_rows store.now result }
    ensures below { IsRelationBelow store.now literal result }
{
    match store.view(literal).shape() {
        NodeShape::Unary(op, a) => denied(store, op, a),
        NodeShape::Binary(op, a, b) => held(symbols, records, store, op, a, b),
        NodeShape::Literal(_) | NodeShape::Truth(_) | NodeShape::Symbol(_) | NodeShape::Bound(_) =>
            Relation::Nothing,
        NodeShape::Update(_, _, _) | NodeShape::Quantified(_, _, _, _) => Relation::Nothing,
        NodeShape::Sequence(_, _) | NodeShape::Record(_, _) => Relation::Nothing,
    }
}

/// What the operator says where it holds.
fn held(
    symbols: &[Sort],
    records: &[Items<Sort>],
    store: &TermStore,
    op: Binary,
    a: usize,
    b: usize,
) -> Relation
    requires left { a < length store.now }
    requires narrow { forms.is_narrow (binary op (tree_at store.now a) (tree_at store.now b)) ≡ true }
    ensures rows { row_specs.rows_of_relation (record_types records.now) (types_of symbols.now) op (tree_at store.now a) (tree_at store.now b)
        ≡ relation_rows store.now result }
    ensures below { (bound : ℕ) → a < bound → b < bound → IsRelationBelow store.now bound result }
{
    match op {
        Binary::Eq => {
            if is_number(symbols, records, store, a) {
                Relation::Equal(a, b)
            } else {
                Relation::Nothing
            }
        }
        Binary::Lt => Relation::Below(a, b),
        Binary::Le => Relation::AtMost(a, b),
        Binary::Add | Binary::Sub | Binary::Mul | Binary::Div | Binary::Rem => Relation::Nothing,
        Binary::And | Binary::Or | Binary::Imply => Relation::Nothing,
        Binary::Read | Binary::Append => Relation::Nothing,
    }
}

fn is_number(symbols: &[Sort], records: &[Items<Sort>], store: &TermStore, id: usize) -> bool
    requires { id < length store.now }
    ensures { result ≡ same_type (type_of_tree (record_types records.now) (types_of symbols.now) (tree_at store.now id)) number_type }
{
    type_of(symbols, records, store, id).is_number()
}

/// What a node over one part says.
fn denied(store: &TermStore, op: Unary, a: usize) -> Relation
    requires within { a < length store.now }
    requires narrow { forms.is_narrow (tree_at store.now a) ≡ true }
    ensures rows { row_specs.rows_of_unary op (tree_at store.now a) ≡ relation_rows store.now result }
    ensures below { (bound : ℕ) → a < bound → IsRelationBelow store.now bound result }
{
    match op {
        Unary::Not => negated(store, a),
        Unary::Neg | Unary::Size | Unary::Field(_) => Relation::Nothing,
    }
}

/// What the term says where it does not hold.
fn negated(store: &TermStore, id: usize) -> Relation
    requires within { id < length store.now }
    requires narrow { forms.is_narrow (tree_at store.now id) ≡ true }
    ensures rows { row_specs.rows_of_negated (tree_at store.now id) ≡ relation_rows store.now result }
    ensures below { (bound : ℕ) → id < bound → IsRelationBelow store.now bound result }
{
    match store.view(id).shape() {
        NodeShape::Binary(op, a, b) => contrary(store, op, a, b),
        NodeShape::Literal(_) | NodeShape::Truth(_) | NodeShape::Symbol(_) | NodeShape::Bound(_) =>
            Relation::Nothing,
        NodeShape::Unary(_, _) | NodeShape::Update(_, _, _) => Relation::Nothing,
        NodeShape::Quantified(_, _, _, _) => Relation::Nothing,
        NodeShape::Sequence(_, _) | NodeShape::Record(_, _) => Relation::Nothing,
    }
}

/// What the operator says where it does not hold.
fn contrary(store: &TermStore, op: Binary, a: usize, b: usize) -> Relation
    requires { forms.is_narrow (binary op (tree_at store.now a) (tree_at store.now b)) ≡ true }
    ensures rows { row_specs.rows_of_opposite op (tree_at store.now a) (tree_at store.now b) ≡ relation_rows store.now result }
    ensures below { (bound : ℕ) → a < bound → b < bound → IsRelationBelow store.now bound result }
{
    match op {
        Binary::Lt => Relation::AtMost(b, a),
        Binary::Le => Relation::Below(b, a),
        Binary::Add | Binary::Sub | Binary::Mul | Binary::Div | Binary::Rem => Relation::Nothing,
        Binary::And | Binary::Or | Binary::Imply | Binary::Eq => Relation::Nothing,
        Binary::Read | Binary::Append => Relation::Nothing,
    }
}

/// Adds the rows of a relation.
fn push_rows(
    alloc: Global,
    store: &TermStore,
    entries: &[Entry],
    relation: Relation,
    rows: &mut Vec<IdRow>,
) -> Result<(), NoMemory>
    requires entries { AreEntries store.now entries.now }
    requires relation { IsRelationBelow store.now (length entries.now) relation }
    requires within { RowsWithin store.now rows.old.items }
    ensures { OnOk result (AreRows store.now rows.new.items (rows_at store.now rows.old.items ++ relation_rows store.now relation)) }
{
    match relation {
        Relation::AtMost(a, b) => {
            let form = difference_of(alloc, store, entries, a, b)?;
            rows.push(at_most(form, 0))?;
            Ok(())
        }
        Relation::Below(a, b) => {
            let form = difference_of(alloc, store, entries, a, b)?;
            rows.push(at_most(form, -1))?;
            Ok(())
        }
        Relation::Equal(a, b) => push_equality(alloc, store, entries, a, b, rows),
        Relation::Nothing => Ok(()),
    }
}

/// Adds the two rows of an equality.
fn push_equality(
    alloc: Global,
    store: &TermStore,
    entries: &[Entry],
    a: usize,
    b: usize,
    rows: &mut Vec<IdRow>,
) -> Result<(), NoMemory>
    requires entries { AreEntries store.now entries.now }
    requires sides { AreSides store.now (length entries.now) a b }
    requires within { RowsWithin store.now rows.old.items }
    ensures { OnOk result
        (AreRows store.now rows.new.items (rows_at store.now rows.old.items ++ row_specs.eq_rows (tree_at store.now a) (tree_at store.now b))) }
{
    let form = difference_of(alloc, store, entries, a, b)?;
    let opposite = at_least(alloc, &form, 0)?;
    rows.push(at_most(form, 0))?;
    rows.push(opposite)?;
    Ok(())
}
