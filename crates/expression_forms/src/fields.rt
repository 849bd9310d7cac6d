ghost use Rattle.std.specs.Prelude.{◌≡◌, [], ◌∷◌, None};
ghost use Rattle.type_rules.specs.Faults.{fault};
ghost use Rattle.type_rules.specs.Judged.{known_type, over};
ghost use Rattle.type_rules.specs.Meanings.{Scope};
ghost use Rattle.type_rules.specs.Expressions as rule;
ghost use Rattle.text_types.specs.Found.{IsJudged, seen};
ghost use Rattle.name_scopes.specs.Fits.{Fits};

use name_scopes::NameScope;
use slang_tree::{Fault, Name, Place};
use text_types::{Found, TextType, over};
use type_faults::FirstFault;

/// What is found over a head, where this fault is of the form's own.
fn over_fault(told: &mut FirstFault, place: Place, head: Found, code: u8, at: Place) -> Found
    ensures { IsJudged told.old.found told.new.found result (over place (seen head ∷ []) (fault code at ∷ []) None) }
{
    let mut own = FirstFault::none();
    own.tell(Fault { code, place: at });
    over(told, place, &[head], own, None)
}

/// `head.size`.
fn size(told: &mut FirstFault, place: Place, head: Found) -> Found
    ensures { IsJudged told.old.found told.new.found result (rule.judged_size place (seen head)) }
{
    let mut own = FirstFault::none();
    own.tell_unless(head.known().is_sequence(), Fault { code: 8, place });
    over(told, place, &[head], own, Some(TextType::Z))
}

/// A field of a record of this number.
fn found_field(
    scope: &NameScope,
    told: &mut FirstFault,
    place: Place,
    head: Found,
    name: &Name,
    number: u32,
) -> Found
    ensures { (at : Scope) → Fits scope.now at → IsJudged told.old.found told.new.found result
        (rule.judged_found place (seen head) name.now.place (rule.field_named at number name.now.text)) }
{
    match scope.field(number, name.text.as_str()) {
        None => over_fault(told, place, head, 6, name.place),
        Some(ty) => over(told, place, &[head], FirstFault::none(), ty),
    }
}

/// A field of a record.
fn record_field(
    scope: &NameScope,
    told: &mut FirstFault,
    place: Place,
    head: Found,
    name: &Name,
) -> Found
    ensures { (at : Scope) → Fits scope.now at → IsJudged told.old.found told.new.found result
        (rule.judged_record_field at place (seen head) name.now (known_type (seen head))) }
{
    match head.known() {
        TextType::Record(number) => found_field(scope, told, place, head, name, number),
        _ => over_fault(told, place, head, 8, place),
    }
}

/// `head.name`: the size of a sequence, or a field of a record.
pub fn field(
    scope: &NameScope,
    told: &mut FirstFault,
    place: Place,
    head: Found,
    name: &Name,
) -> Found
    ensures { (at : Scope) → Fits scope.now at
        → IsJudged told.old.found told.new.found result (rule.judged_field at place (seen head) name.now) }
{
    let text = name.text.as_str();
    if text == "indices" {
        over_fault(told, place, head, 15, name.place)
    } else if text == "size" {
        size(told, place, head)
    } else {
        record_field(scope, told, place, head, name)
    }
}
