ghost use Rattle.std.specs.Prelude.{◌≡◌};
ghost use Rattle.slang_values.specs.Value.{number_type, truth_type, record_type, same_type, element_type, field_type};
ghost use Rattle.term_trees.specs.Term.{sort_type};
ghost use Rattle.term_sorts.specs.Types.{type_value, symbol_type, record_types};

use sqlite_items::{Items, at};
use term_trees::Sort;

/// The type of a term. A sequence has the sort of its elements, which stands in a sort or in a term, and a record its number.
#[derive(Clone, Copy)]
pub enum TermType<'a> {
    /// Of a term that has no other type.
    Unit,
    Number,
    Truth,
    Sequence(&'a Sort),
    Record(u32),
}

impl<'a> TermType<'a> {
    pub fn is_number(self) -> bool
        ensures { result ≡ same_type (type_value self.entry) number_type }
    {
        match self {
            TermType::Number => true,
            _ => false,
        }
    }

    pub fn is_truth(self) -> bool
        ensures { result ≡ same_type (type_value self.entry) truth_type }
    {
        match self {
            TermType::Truth => true,
            _ => false,
        }
    }

    /// The type of the elements.
    pub fn element(self) -> TermType<'a>
        ensures { type_value result ≡ element_type (type_value self.entry) }
    {
        match self {
            TermType::Sequence(s) => type_of_sort(s),
            _ => TermType::Unit,
        }
    }

    /// The type of the field at a place, from 0.
    pub fn field(self, records: &'a [Items<Sort>], place: u32) -> TermType<'a>
        ensures { type_value result ≡ field_type (record_types records.now) place (type_value self.entry) }
    {
        match self {
            TermType::Record(n) => type_of_field(records, n, place),
            _ => TermType::Unit,
        }
    }
}

#[tactic(auto, using(term_trees::proofs::Sorts::sort_lines))]
fn type_of_sort(sort: &Sort) -> TermType<'_>
    ensures { type_value result ≡ sort_type sort.now }
{
    match sort {
        Sort::Z => TermType::Number,
        Sort::B => TermType::Truth,
        Sort::Seq(s) => TermType::Sequence(s.get()),
        Sort::Rec(n) => TermType::Record(*n),
    }
}

/// The type of a symbol, by its number.
pub fn type_of_symbol(symbols: &[Sort], number: u32) -> TermType<'_>
    ensures { type_value result ≡ symbol_type symbols.now number }
{
    match at(symbols, number as usize) {
        Some(sort) => type_of_sort(sort),
        None => TermType::Unit,
    }
}

fn type_of_field(records: &[Items<Sort>], number: u32, place: u32) -> TermType<'_>
    ensures { type_value result ≡ field_type (record_types records.now) place (record_type number) }
{
    match at(records, number as usize) {
        Some(fields) => type_of_symbol(fields.as_slice(), place),
        None => TermType::Unit,
    }
}
