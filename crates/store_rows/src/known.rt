ghost use Rattle.std.specs.Prelude.{◌≡◌, ℕ, ◌<◌, ◌≤◌, ◌≤ℤ◌, [], ◌∷◌, ◌++◌, length, pos, OnOk, true};
ghost use Rattle.slang_values.specs.Tree.{unary, binary};
ghost use Rattle.slang_values.specs.declared.operators.Binary as binary_specs;
ghost use Rattle.tree_forms.specs.Form as forms;
ghost use Rattle.term_store.specs.Store.{tree_at};
ghost use Rattle.store_entries.specs.Entries.{AreEntries};
ghost use Rattle.store_atoms.specs.Views.{rows_at, RowsWithin, AreRows};
ghost use Rattle.closing.specs.Rows as row_specs;
ghost use Rattle.store_rows.specs.Said.{quotient_rows, known_rows, IsNarrowKnown, IsKnownBelow};

use crate::NoMemory;
use crate::forms::rest_of;
use slang_values::{Binary, Unary};
use std::alloc::Global;
use store_atoms::{IdRow, at_least, at_most};
use store_entries::{Entry, IdForm};
use term_nodes::NodeShape;
use term_store::TermStore;

/// What is known of an atom.
#[derive(Clone, Copy)]
pub enum Known {
    /// It is a size, so it is at least 0.
    Size,
    /// It is the quotient of the term by the number, which is 1 or more.
    Quotient(usize, i128),
    Nothing,
}

fn known_of(store: &TermStore, atom: usize) -> Known
    requires { atom < length store.now }
    ensures rows { row_specs.rows_of_atom (tree_at store.now atom) ≡ known_rows store.now (tree_at store.now atom) result }
    ensures below { IsKnownBelow atom result }
    ensures narrow { forms.is_narrow (tree_at store.now atom) ≡ true → IsNarrowKnown store.now result }
{
    match store.view(atom).shape() {
        NodeShape::Unary(op, a) => known_of_unary(store, op, a),
        NodeShape::Binary(op, a, b) => known_of_binary(store, op, a, b),
        NodeShape::Literal(_) | NodeShape::Truth(_) | NodeShape::Symbol(_) | NodeShape::Bound(_) =>
            Known::Nothing,
        NodeShape::Update(_, _, _) | NodeShape::Quantified(_, _, _, _) => Known::Nothing,
        NodeShape::Sequence(_, _) | NodeShape::Record(_, _) => Known::Nothing,
    }
}

/// `store` and `a` stand in the contract alone.
fn known_of_unary(store: &TermStore, op: Unary, a: usize) -> Known
    ensures rows { row_specs.rows_of_unary_atom op (tree_at store.now a) ≡ known_rows store.now (unary op (tree_at store.now a)) result }
    ensures below { (atom : ℕ) → IsKnownBelow atom result }
    ensures narrow { IsNarrowKnown store.now result }
{
    match op {
        Unary::Size => Known::Size,
        Unary::Neg | Unary::Not | Unary::Field(_) => Known::Nothing,
    }
}

fn known_of_binary(store: &TermStore, op: Binary, a: usize, b: usize) -> Known
    requires { b < length store.now }
    ensures rows { row_specs.rows_of_binary_atom op (tree_at store.now a) (tree_at store.now b)
        ≡ known_rows store.now (binary op (tree_at store.now a) (tree_at store.now b)) result }
    ensures below { (atom : ℕ) → a < atom → IsKnownBelow atom result }
    ensures narrow { forms.is_narrow (binary op (tree_at store.now a) (tree_at store.now b)) ≡ true → IsNarrowKnown store.now result }
{
    match op {
        Binary::Div => known_of_quotient(store, a, b),
        Binary::Add | Binary::Sub | Binary::Mul | Binary::Rem => Known::Nothing,
        Binary::And | Binary::Or | Binary::Imply => Known::Nothing,
        Binary::Eq | Binary::Lt | Binary::Le => Known::Nothing,
        Binary::Read | Binary::Append => Known::Nothing,
    }
}

fn known_of_quotient(store: &TermStore, a: usize, divisor: usize) -> Known
    requires { divisor < length store.now }
    ensures rows { row_specs.rows_of_quotient (tree_at store.now a) (tree_at store.now divisor)
        ≡ known_rows store.now (binary binary_specs.Binary.Div (tree_at store.now a) (tree_at store.now divisor)) result }
    ensures below { (atom : ℕ) → a < atom → IsKnownBelow atom result }
    ensures narrow { forms.is_narrow (binary binary_specs.Binary.Div (tree_at store.now a) (tree_at store.now divisor)) ≡ true
        → IsNarrowKnown store.now result }
{
    match store.view(divisor).shape() {
        NodeShape::Literal(c) => {
            if 1 <= c {
                Known::Quotient(a, c)
            } else {
                Known::Nothing
            }
        }
        NodeShape::Truth(_) | NodeShape::Symbol(_) | NodeShape::Bound(_) => Known::Nothing,
        NodeShape::Unary(_, _) | NodeShape::Binary(_, _, _) => Known::Nothing,
        NodeShape::Update(_, _, _) | NodeShape::Quantified(_, _, _, _) => Known::Nothing,
        NodeShape::Sequence(_, _) | NodeShape::Record(_, _) => Known::Nothing,
    }
}

/// Whether something is known of the atom.
pub fn has_rows(store: &TermStore, atom: usize) -> bool
    requires { atom < length store.now }
    ensures { result ≡ row_specs.has_rows (row_specs.rows_of_atom (tree_at store.now atom)) }
{
    match known_of(store, atom) {
        Known::Size | Known::Quotient(_, _) => true,
        Known::Nothing => false,
    }
}

/// Adds the row of a size.
fn push_row_of_size(
    alloc: Global,
    store: &TermStore,
    atom: usize,
    rows: &mut Vec<IdRow>,
) -> Result<(), NoMemory>
    requires atom { atom < length store.now }
    requires within { RowsWithin store.now rows.old.items }
    ensures { OnOk result
        (AreRows store.now rows.new.items (rows_at store.now rows.old.items ++ row_specs.at_least (forms.atom_form (tree_at store.now atom)) (pos 0) ∷ [])) }
{
    let size = IdForm::of_atom(alloc, atom)?;
    let row = at_least(alloc, &size, 0)?;
    rows.push(row)?;
    Ok(())
}

/// Adds the rows of the quotient of `a` by `c`.
fn push_rows_of_quotient(
    alloc: Global,
    store: &TermStore,
    entries: &[Entry],
    a: usize,
    c: i128,
    quotient: usize,
    rows: &mut Vec<IdRow>,
) -> Result<(), NoMemory>
    requires entries { AreEntries store.now entries.now }
    requires dividend { a < length entries.now }
    requires narrow { forms.is_narrow (tree_at store.now a) ≡ true }
    requires divisor { forms.is_within c ≡ true }
    requires positive { pos 1 ≤ℤ c }
    requires atom { quotient < length store.now }
    requires within { RowsWithin store.now rows.old.items }
    ensures { OnOk result
        (AreRows store.now rows.new.items (rows_at store.now rows.old.items ++ quotient_rows (tree_at store.now a) c (tree_at store.now quotient))) }
{
    let rest = rest_of(alloc, store, entries, a, c, quotient)?;
    let low = at_least(alloc, &rest, 1 - c)?;
    rows.push(low)?;
    rows.push(at_most(rest, c - 1))?;
    Ok(())
}

/// Adds the rows of an atom.
pub fn push_rows_of_atom(
    alloc: Global,
    store: &TermStore,
    entries: &[Entry],
    atom: usize,
    rows: &mut Vec<IdRow>,
) -> Result<(), NoMemory>
    requires entries { AreEntries store.now entries.now }
    requires formed { atom ≤ length entries.now }
    requires atom { atom < length store.now }
    requires narrow { forms.is_narrow (tree_at store.now atom) ≡ true }
    requires within { RowsWithin store.now rows.old.items }
    ensures { OnOk result (AreRows store.now rows.new.items (rows_at store.now rows.old.items ++ row_specs.rows_of_atom (tree_at store.now atom))) }
{
    match known_of(store, atom) {
        Known::Size => push_row_of_size(alloc, store, atom, rows),
        Known::Quotient(a, c) => push_rows_of_quotient(alloc, store, entries, a, c, atom, rows),
        Known::Nothing => Ok(()),
    }
}
