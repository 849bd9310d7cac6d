ghost use Rattle.std.specs.Prelude.{◌≡◌, map, Some};
ghost use Rattle.type_rules.specs.Meanings.{Scope, meaning_of};
ghost use Rattle.type_rules.specs.Constants.{judged_applied};
ghost use Rattle.text_types.specs.Found.{IsJudged, seen};
ghost use Rattle.name_scopes.specs.Fits.{Fits};
ghost use Rattle.name_scopes.specs.Meanings.{meant};
ghost use Rattle.constant_judging.specs.Applied.{record_meant};

use expression_forms::record;
use name_scopes::{Meaning, NameScope};
use slang_tree::{Name, Place};
use text_types::Found;
use type_faults::FirstFault;

/// The number of a record.
fn record_number(meaning: &Meaning) -> Option<u32>
    ensures { result ≡ record_meant (meant meaning.now) }
{
    match meaning {
        Meaning::Record(number) => Some(*number),
        _ => None,
    }
}

/// What stands for a thing of this meaning that is applied to fields.
fn known_applied(
    scope: &NameScope,
    told: &mut FirstFault,
    place: Place,
    meaning: &Meaning,
    fields: &[Found],
) -> Found
    ensures { (at : Scope) → Fits scope.now at → IsJudged told.old.found told.new.found result
        (judged_applied at place (Some (meant meaning.now)) (map seen fields.now)) }
{
    match record_number(meaning) {
        None => Found::faulty(told, place, 12, place),
        Some(number) => record(scope, told, place, number, fields),
    }
}

/// What a name stands for that is applied to fields: a record.
pub fn applied(scope: &NameScope, told: &mut FirstFault, name: &Name, fields: &[Found]) -> Found
    ensures { (at : Scope) → Fits scope.now at → IsJudged told.old.found told.new.found result
        (judged_applied at name.now.place (meaning_of at name.now.text) (map seen fields.now)) }
{
    let place = name.place;
    match scope.meaning(name.text.as_str()) {
        None => Found::faulty(told, place, 6, place),
        Some(meaning) => known_applied(scope, told, place, meaning, fields),
    }
}
