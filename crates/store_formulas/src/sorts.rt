ghost use Rattle.std.specs.Prelude.{◌≡◌, ◌<◌, length};
ghost use Rattle.slang_values.specs.Typing.{type_of as type_of_tree};
ghost use Rattle.term_sorts.specs.Types.{type_value, symbol_type, types_of, record_types};
ghost use Rattle.term_store.specs.Store.{tree_at};

use slang_values::{Binary, Unary};
use sqlite_items::{Items, at};
use term_nodes::NodeShape;
use term_sorts::TermType;
use term_store::TermStore;
use term_trees::Sort;

/// The type of a symbol, by its number.
fn type_of_symbol(symbols: &[Sort], number: u32) -> TermType<'_>
    ensures { type_value result ≡ symbol_type symbols.now number }
{
    match at(symbols, number as usize) {
        Some(sort) => TermType::Sequence(sort).element(),
        None => TermType::Unit,
    }
}

/// The type of a term over symbols of these sorts, and records whose fields have these sorts.
pub fn type_of<'a>(
    symbols: &'a [Sort],
    records: &'a [Items<Sort>],
    store: &'a TermStore,
    id: usize,
) -> TermType<'a>
    requires { id < length store.now }
    ensures { type_value result ≡ type_of_tree (record_types records.now) (types_of symbols.now) (tree_at store.now id) }
{
    match store.view(id).shape() {
        NodeShape::Literal(_) | NodeShape::Bound(_) => TermType::Number,
        NodeShape::Truth(_) | NodeShape::Quantified(_, _, _, _) => TermType::Truth,
        NodeShape::Symbol(n) => type_of_symbol(symbols, n),
        NodeShape::Unary(op, a) => match op {
            Unary::Neg | Unary::Size => TermType::Number,
            Unary::Not => TermType::Truth,
            Unary::Field(k) => type_of(symbols, records, store, a).field(records, k),
        },
        NodeShape::Binary(op, a, _) => match op {
            Binary::Add | Binary::Sub | Binary::Mul | Binary::Div | Binary::Rem => TermType::Number,
            Binary::And | Binary::Or | Binary::Imply | Binary::Eq | Binary::Lt | Binary::Le =>
                TermType::Truth,
            Binary::Read => type_of(symbols, records, store, a).element(),
            Binary::Append => type_of(symbols, records, store, a),
        },
        NodeShape::Update(a, _, _) => type_of(symbols, records, store, a),
        NodeShape::Sequence(s, _) => TermType::Sequence(s),
        NodeShape::Record(n, _) => TermType::Record(n),
    }
}
