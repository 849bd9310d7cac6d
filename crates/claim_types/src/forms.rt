ghost use Rattle.std.specs.Prelude.{◌≡◌, ◌&&◌, slice_get};
ghost use Rattle.std.specs.Option.{option_map};
ghost use Rattle.slang_values.specs.Value.{fields};
ghost use Rattle.lk_claims.specs.Claim.{value_type};
ghost use Rattle.claim_types.specs.Judged.{between as between_types, element_of, equal_type as equal_types, given_if, is_type, of_one, place_type, read_type, record_in, size_type, with_element as with_element_type};
ghost use Rattle.claim_types.specs.Views.{records_of, told, view_type};

use crate::view::TypeView;
use lk_claims::Ty;
use slang_values::{Binary, Unary};
use sqlite_items::Items;

/// Whether the type is there, and is that one.
pub fn has_type(view: Option<TypeView<'_>>, due: TypeView<'_>) -> bool
    ensures { result ≡ is_type (view_type due.entry) (told view.entry) }
{
    match view {
        Some(view) => view.is_same(due),
        None => false,
    }
}

/// The type, where that holds.
pub(crate) fn type_where(holds: bool, view: TypeView<'_>) -> Option<TypeView<'_>>
    ensures { told result ≡ given_if holds (view_type view.entry) }
{
    if holds { Some(view) } else { None }
}

/// The type of the elements, where it is a type of sequences.
fn elements(a: Option<TypeView<'_>>) -> Option<&Ty>
    ensures { option_map (λ t. value_type t.now) result ≡ element_of (told a.entry) }
{
    match a {
        Some(view) => match view {
            TypeView::Unit => None,
            TypeView::Number => None,
            TypeView::Truth => None,
            TypeView::Sequence(element) => Some(element),
            TypeView::Record(_) => None,
        },
        None => None,
    }
}

/// The number of the record, where it is the type of one.
fn record_number(a: Option<TypeView<'_>>) -> Option<u32>
    ensures { result ≡ record_in (told a.entry) }
{
    match a {
        Some(view) => match view {
            TypeView::Unit => None,
            TypeView::Number => None,
            TypeView::Truth => None,
            TypeView::Sequence(_) => None,
            TypeView::Record(number) => Some(number),
        },
        None => None,
    }
}

fn size_of<'a>(a: Option<TypeView<'a>>) -> Option<TypeView<'a>>
    ensures { told result ≡ size_type (told a.entry) }
{
    match elements(a) {
        Some(_) => Some(TypeView::Number),
        None => None,
    }
}

/// The type of the field at a place of the record of that number.
fn field_at<'a>(records: &'a [Items<Ty>], number: u32, place: u32) -> Option<TypeView<'a>>
    ensures { told result ≡ slice_get (fields (records_of records.now) number) place }
{
    match records.get(number as usize) {
        Some(fields) => match fields.get(place as usize) {
            Some(ty) => Some(TypeView::new(ty)),
            None => None,
        },
        None => None,
    }
}

fn field_of<'a>(
    records: &'a [Items<Ty>],
    place: u32,
    a: Option<TypeView<'a>>,
) -> Option<TypeView<'a>>
    ensures { told result ≡ place_type (records_of records.now) place (told a.entry) }
{
    match record_number(a) {
        Some(number) => field_at(records, number, place),
        None => None,
    }
}

/// The type of an operator with one part.
pub(crate) fn of_unary<'a>(
    records: &'a [Items<Ty>],
    op: Unary,
    a: Option<TypeView<'a>>,
) -> Option<TypeView<'a>>
    ensures { told result ≡ of_one (records_of records.now) op (told a.entry) }
{
    match op {
        Unary::Neg => type_where(has_type(a, TypeView::Number), TypeView::Number),
        Unary::Not => type_where(has_type(a, TypeView::Truth), TypeView::Truth),
        Unary::Size => size_of(a),
        Unary::Field(place) => field_of(records, place, a),
    }
}

fn element_read<'a>(a: Option<TypeView<'a>>, i: Option<TypeView<'a>>) -> Option<TypeView<'a>>
    ensures { told result ≡ read_type (told a.entry) (told i.entry) }
{
    match elements(a) {
        Some(element) => type_where(has_type(i, TypeView::Number), TypeView::new(element)),
        None => None,
    }
}

/// The type of a sequence with an element, where the rest is well typed.
pub(crate) fn with_element<'a>(
    rest: bool,
    a: Option<TypeView<'a>>,
    x: Option<TypeView<'a>>,
) -> Option<TypeView<'a>>
    ensures { told result ≡ with_element_type rest (told a.entry) (told x.entry) }
{
    match elements(a) {
        Some(element) => {
            let is_well = rest && has_type(x, TypeView::new(element));
            type_where(is_well, TypeView::Sequence(element))
        }
        None => None,
    }
}

fn equality<'a>(a: Option<TypeView<'a>>, b: Option<TypeView<'a>>) -> Option<TypeView<'a>>
    ensures { told result ≡ equal_types (told a.entry) (told b.entry) }
{
    match a {
        Some(view) => type_where(has_type(b, view), TypeView::Truth),
        None => None,
    }
}

/// The type, where both parts are of one type.
fn of_both<'a>(
    a: Option<TypeView<'a>>,
    b: Option<TypeView<'a>>,
    part: TypeView<'a>,
    whole: TypeView<'a>,
) -> Option<TypeView<'a>>
    ensures { told result ≡ given_if (is_type (view_type part.entry) (told a.entry) && is_type (view_type part.entry) (told b.entry)) (view_type whole.entry) }
{
    let is_well = has_type(a, part) && has_type(b, part);
    type_where(is_well, whole)
}

/// The type of an operator between two parts.
pub(crate) fn between<'a>(
    op: Binary,
    a: Option<TypeView<'a>>,
    b: Option<TypeView<'a>>,
) -> Option<TypeView<'a>>
    ensures { told result ≡ between_types op (told a.entry) (told b.entry) }
{
    match op {
        Binary::Add | Binary::Sub | Binary::Mul | Binary::Div | Binary::Rem => {
            of_both(a, b, TypeView::Number, TypeView::Number)
        }
        Binary::And | Binary::Or | Binary::Imply => {
            of_both(a, b, TypeView::Truth, TypeView::Truth)
        }
        Binary::Lt | Binary::Le => of_both(a, b, TypeView::Number, TypeView::Truth),
        Binary::Eq => equality(a, b),
        Binary::Read => element_read(a, b),
        Binary::Append => with_element(true, a, b),
    }
}
