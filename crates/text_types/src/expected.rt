ghost use Rattle.std.specs.Prelude.{◌≡◌, map, length, List, None, if◌then◌else◌};
ghost use Rattle.std.specs.Option.{is_some, option_map};
ghost use Rattle.slang_tree.specs.declared.place.Fault.{Fault};
ghost use Rattle.type_rules.specs.Faults.{first_fault};
ghost use Rattle.type_rules.specs.Judged.{all_expect, are_typed, expect_each, expects, over};
ghost use Rattle.type_rules.specs.Expressions.{argument_faults};
ghost use Rattle.type_faults.specs.FirstFault.{with_first};
ghost use Rattle.text_types.specs.TextType.{text_value};
ghost use Rattle.text_types.specs.Found.{IsJudged, seen};

use crate::found::Found;
use crate::text_type::TextType;
use slang_tree::{Fault, Place};
use type_faults::FirstFault;

/// Whether each part has a type.
pub fn are_typed(parts: &[Found]) -> bool
    ensures { result ≡ are_typed (map seen parts.now) }
{
    for part in parts {
        match part.ty {
            None => return false,
            Some(_) => {}
        }
    }
    true
}

/// Tells where a part is not of this type.
pub fn expects(told: &mut FirstFault, ty: TextType, part: Found)
    ensures { told.new.found ≡ with_first told.old.found (expects (text_value ty) (seen part)) }
{
    let holds = ty.same(part.known());
    told.tell_unless(
        holds,
        Fault {
            code: 8,
            place: part.place,
        },
    );
}

/// Tells where parts are not of this type.
#[tactic(auto, using(crate::proofs::Parts::with_none))]
pub fn all_expect(told: &mut FirstFault, ty: TextType, parts: &[Found])
    ensures { told.new.found ≡ with_first told.old.found (all_expect (text_value ty) (map seen parts.now)) }
{
    for part in parts {
        expects(told, ty, *part);
    }
}

/// Tells where parts are not of their types, which are as many.
#[tactic(auto, using(crate::proofs::Parts::with_none))]
fn expect_each(told: &mut FirstFault, types: &[TextType], parts: &[Found])
    requires { length types.now ≡ length parts.now }
    ensures { told.new.found ≡ with_first told.old.found (expect_each (map text_value types.now) (map seen parts.now)) }
{
    for at in 0..types.len() {
        expects(told, types[at], parts[at]);
    }
}

/// Tells where arguments are not of these types, or not as many.
pub fn argument_faults(told: &mut FirstFault, place: Place, types: &[TextType], arguments: &[Found])
    ensures { told.new.found ≡ with_first told.old.found (argument_faults place (map text_value types.now) (map seen arguments.now)) }
{
    if types.len() == arguments.len() {
        expect_each(told, types, arguments);
    } else {
        told.tell(Fault { code: 9, place });
    }
}

/// The type of a form, where it has no faults of its own.
fn typed_without(own: FirstFault, ty: Option<TextType>) -> Option<TextType>
    ensures { result ≡ (if is_some own.found then None else ty) }
{
    match own.found {
        None => ty,
        Some(_) => None,
    }
}

/// What is found at a form, all parts of which have types or not, where the first of its own faults is this one.
pub fn over_typed(
    told: &mut FirstFault,
    place: Place,
    typed: bool,
    own: FirstFault,
    ty: Option<TextType>,
) -> Found
    ensures { (parts : List Found) (faults : List Fault) → typed ≡ are_typed (map seen parts) → own.found ≡ first_fault faults
        → IsJudged told.old.found told.new.found result (over place (map seen parts) faults (option_map text_value ty)) }
{
    if typed {
        told.tell_first(own);
        let ty = typed_without(own, ty);
        Found { place, ty }
    } else {
        Found::untyped(place)
    }
}

/// What is found at a form with these parts, where the first of its own faults is this one.
pub fn over(
    told: &mut FirstFault,
    place: Place,
    parts: &[Found],
    own: FirstFault,
    ty: Option<TextType>,
) -> Found
    ensures { (faults : List Fault) → own.found ≡ first_fault faults
        → IsJudged told.old.found told.new.found result (over place (map seen parts.now) faults (option_map text_value ty)) }
{
    over_typed(told, place, are_typed(parts), own, ty)
}
