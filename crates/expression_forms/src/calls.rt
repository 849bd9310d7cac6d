ghost use Rattle.std.specs.Prelude.{◌≡◌, ◌++◌, ◌∷◌, [], map};
ghost use Rattle.std.specs.Option.{option_map};
ghost use Rattle.type_rules.specs.Faults.{call_out_of_place, first_fault};
ghost use Rattle.type_rules.specs.Meanings.{Scope, field_types};
ghost use Rattle.type_rules.specs.Expressions as rule;
ghost use Rattle.type_faults.specs.FirstFault.{with_first};
ghost use Rattle.text_types.specs.TextType.{text_value};
ghost use Rattle.text_types.specs.Found.{IsJudged, seen};
ghost use Rattle.name_scopes.specs.Meanings.{signed};
ghost use Rattle.name_scopes.specs.Fits.{Fits};
ghost use Rattle.expression_forms.specs.Context.{context_seen};

use crate::context::Context;
use name_scopes::{Method, NameScope};
use slang_tree::{Fault, Place, Text};
use text_types::{Found, TextType, argument_faults, over};
use type_faults::FirstFault;

/// What is wrong with arguments for these types.
fn arguments_fault(place: Place, types: &[TextType], arguments: &[Found]) -> FirstFault
    ensures { result.found ≡ first_fault (rule.argument_faults place (map text_value types.now) (map seen arguments.now)) }
{
    let mut own = FirstFault::none();
    argument_faults(&mut own, place, types, arguments);
    own
}

/// A record of this number with arguments as its fields.
pub fn record(
    scope: &NameScope,
    told: &mut FirstFault,
    place: Place,
    number: u32,
    arguments: &[Found],
) -> Found
    ensures { (at : Scope) → Fits scope.now at
        → IsJudged told.old.found told.new.found result (rule.judged_record place number (field_types at number) (map seen arguments.now)) }
{
    match scope.field_types(number) {
        None => Found::untyped(place),
        Some(types) => {
            let own = arguments_fault(place, types, arguments);
            over(told, place, arguments, own, Some(TextType::Record(number)))
        }
    }
}

/// Tells where a method changes what may not be changed there.
fn changes(scope: &NameScope, told: &mut FirstFault, place: Place, modifies: &[Text])
    ensures { (at : Scope) → Fits scope.now at → told.new.found ≡ with_first told.old.found (rule.change_faults at place modifies.now) }
{
    let holds = scope.covers_all(modifies);
    told.tell_unless(holds, Fault { code: 11, place });
}

/// A call where one may stand.
pub fn call(
    scope: &NameScope,
    told: &mut FirstFault,
    place: Place,
    method: &Method,
    arguments: &[Found],
) -> Found
    ensures { (at : Scope) → Fits scope.now at → IsJudged told.old.found told.new.found result
        (rule.judged_call at place (option_map signed method.now.signature) method.now.modifies (map seen arguments.now)) }
{
    match &method.signature {
        None => Found::untyped(place),
        Some(signature) => {
            changes(scope, told, place, method.modifies.as_slice());
            let own = arguments_fault(place, signature.params.as_slice(), arguments);
            over(told, place, arguments, own, Some(signature.result))
        }
    }
}

/// What is wrong with arguments for these types at a call that may not stand there.
fn nested_fault(place: Place, types: &[TextType], arguments: &[Found]) -> FirstFault
    ensures { result.found ≡ first_fault (rule.argument_faults place (map text_value types.now) (map seen arguments.now) ++ call_out_of_place place ∷ []) }
{
    let mut own = arguments_fault(place, types, arguments);
    own.tell(Fault { code: 12, place });
    own
}

/// A call where none may stand.
pub fn nested_call(
    scope: &NameScope,
    told: &mut FirstFault,
    context: Context,
    place: Place,
    method: &Method,
    arguments: &[Found],
) -> Found
    ensures { (at : Scope) → Fits scope.now at → IsJudged told.old.found told.new.found result
        (rule.judged_nested_call at (context_seen context) place (option_map signed method.now.signature) method.now.modifies (map seen arguments.now)) }
{
    match &method.signature {
        None => Found::untyped(place),
        Some(signature) => {
            if context.is_program() {
                changes(scope, told, place, method.modifies.as_slice());
            }
            let own = nested_fault(place, signature.params.as_slice(), arguments);
            over(told, place, arguments, own, None)
        }
    }
}
