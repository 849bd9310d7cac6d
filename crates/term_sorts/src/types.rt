ghost use Rattle.std.specs.Prelude.{◌≡◌, ℕ};
ghost use Rattle.slang_values.specs.Tree.{Tree, unary, binary};
ghost use Rattle.slang_values.specs.Value.{number_type, truth_type, same_type};
ghost use Rattle.slang_values.specs.Typing.{type_of as type_of_tree};
ghost use Rattle.term_trees.specs.Term.{tree};
ghost use Rattle.term_sorts.specs.Types.{type_value, types_of, record_types};

use crate::term_type::{TermType, type_of_symbol};
use slang_values::{Binary, Unary};
use sqlite_items::Items;
use term_trees::{Shape, Sort, Term};

/// The type of a term over symbols of these sorts, and records whose fields have these sorts.
#[cycle(types)]
pub fn type_of<'a>(symbols: &'a [Sort], records: &'a [Items<Sort>], term: &'a Term) -> TermType<'a>
    ensures { type_value result ≡ type_of_tree (record_types records.now) (types_of symbols.now) (tree term.now) }
{
    match term.shape() {
        Shape::Literal(_) => TermType::Number,
        Shape::Truth(_) => TermType::Truth,
        Shape::Symbol(n) => type_of_symbol(symbols, n),
        Shape::Bound(_) => TermType::Number,
        Shape::Unary(op, a) => type_of_unary(symbols, records, op, a),
        Shape::Binary(op, a, _) => type_of_binary(symbols, records, op, a),
        Shape::Update(a, _, _) => type_of(symbols, records, a),
        Shape::Quantified(_, _, _, _) => TermType::Truth,
        Shape::Sequence(s, _) => TermType::Sequence(s),
        Shape::Record(n, _) => TermType::Record(n),
    }
}

#[cycle(types)]
fn type_of_unary<'a>(
    symbols: &'a [Sort],
    records: &'a [Items<Sort>],
    op: Unary,
    a: &'a Term,
) -> TermType<'a>
    ensures { type_value result ≡ type_of_tree (record_types records.now) (types_of symbols.now) (unary op (tree a.now)) }
{
    match op {
        Unary::Neg | Unary::Size => TermType::Number,
        Unary::Not => TermType::Truth,
        Unary::Field(k) => type_of(symbols, records, a).field(records, k),
    }
}

/// The type of a term over two parts, of which the right one does not matter.
#[cycle(types)]
fn type_of_binary<'a>(
    symbols: &'a [Sort],
    records: &'a [Items<Sort>],
    op: Binary,
    a: &'a Term,
) -> TermType<'a>
    ensures { (b : Tree ℕ) → type_value result ≡ type_of_tree (record_types records.now) (types_of symbols.now) (binary op (tree a.now) b) }
{
    match op {
        Binary::Add | Binary::Sub | Binary::Mul | Binary::Div | Binary::Rem => TermType::Number,
        Binary::And | Binary::Or | Binary::Imply | Binary::Eq | Binary::Lt | Binary::Le =>
            TermType::Truth,
        Binary::Read => type_of(symbols, records, a).element(),
        Binary::Append => type_of(symbols, records, a),
    }
}

/// Whether the term is a number.
pub fn is_number(symbols: &[Sort], records: &[Items<Sort>], term: &Term) -> bool
    ensures { result ≡ same_type (type_of_tree (record_types records.now) (types_of symbols.now) (tree term.now)) number_type }
{
    type_of(symbols, records, term).is_number()
}

/// Whether the term is a truth value.
pub fn is_truth(symbols: &[Sort], records: &[Items<Sort>], term: &Term) -> bool
    ensures { result ≡ same_type (type_of_tree (record_types records.now) (types_of symbols.now) (tree term.now)) truth_type }
{
    type_of(symbols, records, term).is_truth()
}
