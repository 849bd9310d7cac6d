ghost use Rattle.std.specs.Prelude.{◌≡◌, List, Option, Some, map};
ghost use Rattle.slang_tree.specs.declared.place.Fault.{Fault};
ghost use Rattle.type_rules.specs.Judged.{Judged};
ghost use Rattle.type_rules.specs.Meanings.{Scope, meaning_of};
ghost use Rattle.type_rules.specs.Statements as rule;
ghost use Rattle.type_faults.specs.FirstFault.{with_first};
ghost use Rattle.target_judging.specs.Otherwise.{otherwise_faults};
ghost use Rattle.text_types.specs.Found.{AreJudged, seen};
ghost use Rattle.name_scopes.specs.Fits.{Fits};
ghost use Rattle.name_scopes.specs.Meanings.{meant};

use expression_forms::call;
use name_scopes::{Meaning, NameScope};
use slang_tree::{Fault, Name, Place};
use text_types::{Found, are_typed};
use type_faults::FirstFault;

/// Tells where something else than a method is called.
fn called_otherwise(
    scope: &NameScope,
    told: &mut FirstFault,
    place: Place,
    meaning: &Meaning,
    arguments: &[Found],
)
    ensures { (at : Scope) → Fits scope.now at → told.new.found ≡ with_first told.old.found
        (otherwise_faults at place (meant meaning.now) (map seen arguments.now)) }
{
    if scope.is_well_declared(meaning) && are_typed(arguments) {
        told.tell(Fault { code: 12, place });
    }
}

/// Tells what is wrong with a call of a thing of this meaning.
fn known_called(
    scope: &NameScope,
    told: &mut FirstFault,
    place: Place,
    meaning: &Meaning,
    arguments: &[Found],
)
    ensures { (at : Scope) (before : Option Fault) (parts : List Judged) → Fits scope.now at → AreJudged before told.old.found arguments.now parts
        → told.new.found ≡ with_first before (rule.call_faults at place (Some (meant meaning.now)) parts) }
{
    match meaning {
        Meaning::Method(method) => {
            call(scope, told, place, method, arguments);
        }
        _ => called_otherwise(scope, told, place, meaning, arguments),
    }
}

/// Tells what is wrong with a call that stands alone, of which the arguments were judged before.
pub fn called_alone(scope: &NameScope, told: &mut FirstFault, name: &Name, arguments: &[Found])
    ensures { (at : Scope) (before : Option Fault) (parts : List Judged) → Fits scope.now at → AreJudged before told.old.found arguments.now parts
        → told.new.found ≡ with_first before (rule.call_faults at name.now.place (meaning_of at name.now.text) parts) }
{
    let place = name.place;
    match scope.meaning(name.text.as_str()) {
        None => told.tell(Fault { code: 6, place }),
        Some(meaning) => known_called(scope, told, place, meaning, arguments),
    }
}
