ghost use Rattle.std.specs.Prelude.{◌≡◌, map, length};
ghost use Rattle.std.specs.List.{list_all};
ghost use Rattle.slang_values.specs.Value.{same_type, sequence_type, is_known, fields};
ghost use Rattle.term_trees.specs.Term.{sort_type};
ghost use Rattle.term_sorts.specs.Types.{type_value, record_types};
ghost use Rattle.sorted_sequents.specs.Fitting.{is_sequence, has_field};

use sqlite_items::Items;
use term_sorts::TermType;
use term_trees::Sort;

/// Whether two sorts are the same.
#[tactic(auto, using(term_trees::proofs::Sorts::sort_lines))]
fn are_same(a: &Sort, b: &Sort) -> bool
    ensures { result ≡ same_type (sort_type a.now) (sort_type b.now) }
{
    match a {
        Sort::Z => match b {
            Sort::Z => true,
            Sort::B => false,
            Sort::Seq(_) => false,
            Sort::Rec(_) => false,
        },
        Sort::B => match b {
            Sort::Z => false,
            Sort::B => true,
            Sort::Seq(_) => false,
            Sort::Rec(_) => false,
        },
        Sort::Seq(s) => match b {
            Sort::Z => false,
            Sort::B => false,
            Sort::Seq(t) => are_same(s.get(), t.get()),
            Sort::Rec(_) => false,
        },
        Sort::Rec(m) => match b {
            Sort::Z => false,
            Sort::B => false,
            Sort::Seq(_) => false,
            Sort::Rec(n) => m == n,
        },
    }
}

/// Whether two types are the same.
pub fn is_same(a: TermType<'_>, b: TermType<'_>) -> bool
    ensures { result ≡ same_type (type_value a.entry) (type_value b.entry) }
{
    match a {
        TermType::Unit => match b {
            TermType::Unit => true,
            TermType::Number => false,
            TermType::Truth => false,
            TermType::Sequence(_) => false,
            TermType::Record(_) => false,
        },
        TermType::Number => match b {
            TermType::Unit => false,
            TermType::Number => true,
            TermType::Truth => false,
            TermType::Sequence(_) => false,
            TermType::Record(_) => false,
        },
        TermType::Truth => match b {
            TermType::Unit => false,
            TermType::Number => false,
            TermType::Truth => true,
            TermType::Sequence(_) => false,
            TermType::Record(_) => false,
        },
        TermType::Sequence(s) => match b {
            TermType::Unit => false,
            TermType::Number => false,
            TermType::Truth => false,
            TermType::Sequence(t) => are_same(s, t),
            TermType::Record(_) => false,
        },
        TermType::Record(m) => match b {
            TermType::Unit => false,
            TermType::Number => false,
            TermType::Truth => false,
            TermType::Sequence(_) => false,
            TermType::Record(n) => m == n,
        },
    }
}

/// The type of a sort.
pub fn type_of_sort(sort: &Sort) -> TermType<'_>
    ensures { type_value result ≡ sort_type sort.now }
{
    TermType::Sequence(sort).element()
}

pub fn is_sequence(kind: TermType<'_>) -> bool
    ensures { result ≡ is_sequence (type_value kind.entry) }
{
    match kind {
        TermType::Unit => false,
        TermType::Number => false,
        TermType::Truth => false,
        TermType::Sequence(_) => true,
        TermType::Record(_) => false,
    }
}

/// Whether it is the type of sequences of such elements.
pub fn is_sequence_of(kind: TermType<'_>, element: TermType<'_>) -> bool
    ensures { result ≡ same_type (type_value kind.entry) (sequence_type (type_value element.entry)) }
{
    match kind {
        TermType::Unit => false,
        TermType::Number => false,
        TermType::Truth => false,
        TermType::Sequence(sort) => is_same(type_of_sort(sort), element),
        TermType::Record(_) => false,
    }
}

/// Whether it is the type of a record with a field at the place.
pub fn has_field(records: &[Items<Sort>], place: u32, kind: TermType<'_>) -> bool
    ensures { result ≡ has_field (record_types records.now) place (type_value kind.entry) }
{
    match kind {
        TermType::Unit => false,
        TermType::Number => false,
        TermType::Truth => false,
        TermType::Sequence(_) => false,
        TermType::Record(number) => (place as usize) < field_count(records, number),
    }
}

fn field_count(records: &[Items<Sort>], number: u32) -> usize
    ensures { result ≡ length (fields (record_types records.now) number) }
{
    match records.get(number as usize) {
        Some(sorts) => sorts.len(),
        None => 0,
    }
}

/// Whether each record that the sort names is there.
#[tactic(auto, using(term_trees::proofs::Sorts::sort_lines))]
pub fn is_known(records: &[Items<Sort>], sort: &Sort) -> bool
    ensures { result ≡ is_known (record_types records.now) (sort_type sort.now) }
{
    match sort {
        Sort::Z => true,
        Sort::B => true,
        Sort::Seq(element) => is_known(records, element.get()),
        Sort::Rec(number) => (*number as usize) < records.len(),
    }
}

/// Whether that holds of all the sorts.
pub fn are_known(records: &[Items<Sort>], sorts: &[Sort]) -> bool
    ensures { result ≡ list_all (is_known (record_types records.now)) (map sort_type sorts.now) }
{
    for sort in sorts {
        if !is_known(records, sort) {
            return false;
        }
    }
    true
}
