ghost use Rattle.std.specs.Prelude.{◌≡◌, ◌<◌, length, true, false};
ghost use Rattle.case_rules.specs.Cases.{top_alternatives, negated_alternatives, binary_alternatives, negated_binary_alternatives, equality_alternatives, inequality_alternatives};
ghost use Rattle.term_sorts.specs.Types.{types_of, record_types, type_value};
ghost use Rattle.term_store.specs.Store.{tree_at};
ghost use Rattle.store_formulas.specs.Top.{IsTopOf};

use crate::sorts::type_of;
use slang_values::{Binary, Unary};
use sqlite_items::Items;
use term_nodes::NodeShape;
use term_sorts::TermType;
use term_store::TermStore;
use term_trees::Sort;

/// A term, or its negation.
#[derive(Clone, Copy)]
pub struct Signed {
    pub id: usize,
    pub holds: bool,
}

/// What a formula becomes by what stands at its top.
#[derive(Clone, Copy)]
pub enum Top {
    /// Nothing else: it is a literal.
    Literal,
    Again(Signed),
    Both(Signed, Signed),
    Either(Signed, Signed),
    /// Two truth values that are equal, or are not.
    Truths(usize, usize, bool),
    /// Two unequal numbers.
    Apart(usize, usize),
    /// Two records of that number that are equal, or are not.
    Records(u32, usize, usize, bool),
}

fn sure(id: usize) -> Signed
    ensures { result ≡ record { id = id; holds = true } }
{
    Signed { id, holds: true }
}

fn denied(id: usize) -> Signed
    ensures { result ≡ record { id = id; holds = false } }
{
    Signed { id, holds: false }
}

/// The equality of two terms of that type.
fn top_of_equality(
    records: &[Items<Sort>],
    store: &TermStore,
    kind: TermType<'_>,
    a: usize,
    b: usize,
) -> Top
    requires left { a < length store.now }
    requires right { b < length store.now }
    ensures { IsTopOf (record_types records.now) store.now result (equality_alternatives (record_types records.now) (type_value kind.entry) (tree_at store.now a) (tree_at store.now b)) }
{
    match kind {
        TermType::Truth => Top::Truths(a, b, true),
        TermType::Record(n) => Top::Records(n, a, b, true),
        TermType::Unit | TermType::Number | TermType::Sequence(_) => Top::Literal,
    }
}

/// The negation of such an equality.
fn top_of_inequality(
    records: &[Items<Sort>],
    store: &TermStore,
    kind: TermType<'_>,
    a: usize,
    b: usize,
) -> Top
    requires left { a < length store.now }
    requires right { b < length store.now }
    ensures { IsTopOf (record_types records.now) store.now result (inequality_alternatives (record_types records.now) (type_value kind.entry) (tree_at store.now a) (tree_at store.now b)) }
{
    match kind {
        TermType::Number => Top::Apart(a, b),
        TermType::Truth => Top::Truths(a, b, false),
        TermType::Record(n) => Top::Records(n, a, b, false),
        TermType::Unit | TermType::Sequence(_) => Top::Literal,
    }
}

/// A formula over two parts.
fn top_of_binary(
    symbols: &[Sort],
    records: &[Items<Sort>],
    store: &TermStore,
    op: Binary,
    a: usize,
    b: usize,
) -> Top
    requires left { a < length store.now }
    requires right { b < length store.now }
    ensures { IsTopOf (record_types records.now) store.now result (binary_alternatives (record_types records.now) (types_of symbols.now) op (tree_at store.now a) (tree_at store.now b)) }
{
    match op {
        Binary::And => Top::Both(sure(a), sure(b)),
        Binary::Or => Top::Either(sure(a), sure(b)),
        Binary::Imply => Top::Either(denied(a), sure(b)),
        Binary::Eq => {
            let kind = type_of(symbols, records, store, a);
            top_of_equality(records, store, kind, a, b)
        }
        Binary::Add | Binary::Sub | Binary::Mul | Binary::Div | Binary::Rem => Top::Literal,
        Binary::Lt | Binary::Le | Binary::Read | Binary::Append => Top::Literal,
    }
}

/// The negation of a formula over two parts.
fn top_of_denied_binary(
    symbols: &[Sort],
    records: &[Items<Sort>],
    store: &TermStore,
    op: Binary,
    a: usize,
    b: usize,
) -> Top
    requires left { a < length store.now }
    requires right { b < length store.now }
    ensures { IsTopOf (record_types records.now) store.now result (negated_binary_alternatives (record_types records.now) (types_of symbols.now) op (tree_at store.now a) (tree_at store.now b)) }
{
    match op {
        Binary::And => Top::Either(denied(a), denied(b)),
        Binary::Or => Top::Both(denied(a), denied(b)),
        Binary::Imply => Top::Both(sure(a), denied(b)),
        Binary::Eq => {
            let kind = type_of(symbols, records, store, a);
            top_of_inequality(records, store, kind, a, b)
        }
        Binary::Add | Binary::Sub | Binary::Mul | Binary::Div | Binary::Rem => Top::Literal,
        Binary::Lt | Binary::Le | Binary::Read | Binary::Append => Top::Literal,
    }
}

/// The negation of a formula.
fn top_of_denied(symbols: &[Sort], records: &[Items<Sort>], store: &TermStore, id: usize) -> Top
    requires { id < length store.now }
    ensures { IsTopOf (record_types records.now) store.now result (negated_alternatives (record_types records.now) (types_of symbols.now) (tree_at store.now id)) }
{
    match store.view(id).shape() {
        NodeShape::Unary(op, a) => match op {
            Unary::Not => Top::Again(sure(a)),
            Unary::Neg | Unary::Size | Unary::Field(_) => Top::Literal,
        },
        NodeShape::Binary(op, a, b) => top_of_denied_binary(symbols, records, store, op, a, b),
        NodeShape::Literal(_) | NodeShape::Truth(_) | NodeShape::Symbol(_) | NodeShape::Bound(_) =>
            Top::Literal,
        NodeShape::Update(_, _, _) | NodeShape::Quantified(_, _, _, _) => Top::Literal,
        NodeShape::Sequence(_, _) | NodeShape::Record(_, _) => Top::Literal,
    }
}

/// A formula, by what stands at its top.
pub fn top_of(symbols: &[Sort], records: &[Items<Sort>], store: &TermStore, id: usize) -> Top
    requires { id < length store.now }
    ensures { IsTopOf (record_types records.now) store.now result (top_alternatives (record_types records.now) (types_of symbols.now) (tree_at store.now id)) }
{
    match store.view(id).shape() {
        NodeShape::Unary(op, a) => match op {
            Unary::Not => top_of_denied(symbols, records, store, a),
            Unary::Neg | Unary::Size | Unary::Field(_) => Top::Literal,
        },
        NodeShape::Binary(op, a, b) => top_of_binary(symbols, records, store, op, a, b),
        NodeShape::Literal(_) | NodeShape::Truth(_) | NodeShape::Symbol(_) | NodeShape::Bound(_) =>
            Top::Literal,
        NodeShape::Update(_, _, _) | NodeShape::Quantified(_, _, _, _) => Top::Literal,
        NodeShape::Sequence(_, _) | NodeShape::Record(_, _) => Top::Literal,
    }
}
