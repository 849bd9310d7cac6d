ghost use Rattle.std.specs.Prelude.{◌≡◌, map, Some};
ghost use Rattle.type_rules.specs.Meanings.{Scope, is_global_var, is_var, meaning_of};
ghost use Rattle.std.specs.Option.{option_map};
ghost use Rattle.text_types.specs.TextType.{text_value};
ghost use Rattle.type_rules.specs.Faults.{claim_word_out_of_place};
ghost use Rattle.type_rules.specs.Expressions.{in_ensures, judged_entry, judged_former, judged_meaning, judged_new, judged_old, judged_result_word};
ghost use Rattle.text_types.specs.Found.{IsJudged, seen};
ghost use Rattle.name_scopes.specs.Fits.{Fits};
ghost use Rattle.expression_forms.specs.Context.{context_seen};

use crate::context::Context;
use name_scopes::NameScope;
use slang_tree::{Fault, Name, Place};
use text_types::{Found, TextType, all_expect, over};
use type_faults::FirstFault;

/// A name that is an expression: that of a variable.
pub fn named(scope: &NameScope, told: &mut FirstFault, name: &Name) -> Found
    ensures { (at : Scope) → Fits scope.now at
        → IsJudged told.old.found told.new.found result (judged_meaning at name.now.place (meaning_of at name.now.text)) }
{
    let place = name.place;
    match scope.meaning(name.text.as_str()) {
        None => Found::faulty(told, place, 6, place),
        Some(meaning) => {
            if meaning.is_variable() {
                let ty = meaning.ty();
                Found { place, ty }
            } else if scope.is_well_declared(meaning) {
                Found::faulty(told, place, 8, place)
            } else {
                Found::untyped(place)
            }
        }
    }
}

/// A name of a number that is declared here.
pub fn new_number(scope: &NameScope, told: &mut FirstFault, name: &Name) -> Found
    ensures { (at : Scope) → Fits scope.now at → IsJudged told.old.found told.new.found result (judged_new at name.now) }
{
    let place = name.place;
    if scope.is_known(name.text.as_str()) {
        Found::faulty(told, place, 7, place)
    } else {
        Found::well(place, TextType::Z)
    }
}

/// The fault of a word of claims that is out of place.
fn word_out_of_place(place: Place) -> FirstFault
    ensures { result.found ≡ Some (claim_word_out_of_place place) }
{
    let mut own = FirstFault::none();
    own.tell(Fault { code: 15, place });
    own
}

/// `Res` in an Ensures of a method with a result of this type, with the type beside it, if there is one.
fn ensured_word(
    told: &mut FirstFault,
    place: Place,
    types: &[Found],
    result_type: Option<TextType>,
) -> Found
    ensures { IsJudged told.old.found told.new.found result
        (judged_result_word (in_ensures (option_map text_value result_type)) place (map seen types.now)) }
{
    match result_type {
        None => Found::untyped(place),
        Some(TextType::Unit) => over(told, place, types, word_out_of_place(place), None),
        Some(ty) => {
            let mut own = FirstFault::none();
            all_expect(&mut own, ty, types);
            over(told, place, types, own, Some(ty))
        }
    }
}

/// `Res`, with the type beside it, if there is one.
pub fn result_word(told: &mut FirstFault, context: Context, place: Place, types: &[Found]) -> Found
    ensures { IsJudged told.old.found told.new.found result (judged_result_word (context_seen context) place (map seen types.now)) }
{
    match context {
        Context::Ensures(ty) => ensured_word(told, place, types, ty),
        _ => over(told, place, types, word_out_of_place(place), None),
    }
}

/// What the global `var` of a name was when the method began.
fn entry_global(scope: &NameScope, told: &mut FirstFault, place: Place, name: &Name) -> Found
    ensures { (at : Scope) → Fits scope.now at
        → IsJudged told.old.found told.new.found result (judged_former is_global_var place name.now.place (meaning_of at name.now.text)) }
{
    match scope.meaning(name.text.as_str()) {
        None => Found::faulty(told, place, 6, name.place),
        Some(meaning) => {
            if meaning.is_global_var() {
                let ty = meaning.ty();
                Found { place, ty }
            } else {
                Found::faulty(told, place, 15, place)
            }
        }
    }
}

/// What the `var` of a name was before its last change.
fn old_var(scope: &NameScope, told: &mut FirstFault, place: Place, name: &Name) -> Found
    ensures { (at : Scope) → Fits scope.now at
        → IsJudged told.old.found told.new.found result (judged_former is_var place name.now.place (meaning_of at name.now.text)) }
{
    match scope.meaning(name.text.as_str()) {
        None => Found::faulty(told, place, 6, name.place),
        Some(meaning) => {
            if meaning.is_var() {
                let ty = meaning.ty();
                Found { place, ty }
            } else {
                Found::faulty(told, place, 15, place)
            }
        }
    }
}

/// `In` of a name.
pub fn entry_value(
    scope: &NameScope,
    told: &mut FirstFault,
    context: Context,
    place: Place,
    name: &Name,
) -> Found
    ensures { (at : Scope) → Fits scope.now at
        → IsJudged told.old.found told.new.found result (judged_entry (context_seen context) place name.now.place (meaning_of at name.now.text)) }
{
    match context {
        Context::Ensures(_) => entry_global(scope, told, place, name),
        _ => Found::faulty(told, place, 15, place),
    }
}

/// `Old` of a name.
pub fn old_value(
    scope: &NameScope,
    told: &mut FirstFault,
    context: Context,
    place: Place,
    name: &Name,
) -> Found
    ensures { (at : Scope) → Fits scope.now at
        → IsJudged told.old.found told.new.found result (judged_old (context_seen context) place name.now.place (meaning_of at name.now.text)) }
{
    match context {
        Context::Proof => old_var(scope, told, place, name),
        _ => Found::faulty(told, place, 15, place),
    }
}
