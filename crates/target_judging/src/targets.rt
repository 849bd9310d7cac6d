ghost use Rattle.std.specs.Prelude.{◌≡◌, [], ◌∷◌, Some, if◌then◌else◌};
ghost use Rattle.std.specs.Option.{option_map};
ghost use Rattle.type_rules.specs.Faults.{constant_assigned, outside_modifies, unless};
ghost use Rattle.type_rules.specs.Meanings.{Scope, is_var, meaning_of};
ghost use Rattle.type_rules.specs.Statements as rule;
ghost use Rattle.type_faults.specs.FirstFault.{with_first};
ghost use Rattle.text_types.specs.TextType.{text_value};
ghost use Rattle.name_scopes.specs.Fits.{Fits};
ghost use Rattle.name_scopes.specs.Meanings.{meant};

use name_scopes::{Meaning, NameScope};
use slang_tree::{Fault, Name};
use text_types::TextType;
use type_faults::FirstFault;

/// Tells where a name without fault is not that of a `var` that may be changed.
fn changed(scope: &NameScope, told: &mut FirstFault, name: &Name, meaning: &Meaning)
    ensures { (at : Scope) → Fits scope.now at → told.new.found ≡ with_first told.old.found
        (if is_var (meant meaning.now) then unless (at.covers name.now.text) (outside_modifies name.now.place) else constant_assigned name.now.place ∷ []) }
{
    let place = name.place;
    if meaning.is_var() {
        let holds = scope.covers(name.text.as_str());
        told.tell_unless(holds, Fault { code: 11, place });
    } else {
        told.tell(Fault { code: 10, place });
    }
}

/// Tells where a known name may not be assigned.
#[tactic(auto, using(text_types::proofs::Parts::with_none))]
fn assigned(scope: &NameScope, told: &mut FirstFault, name: &Name, meaning: &Meaning)
    ensures { (at : Scope) → Fits scope.now at
        → told.new.found ≡ with_first told.old.found (rule.target_faults at name.now (Some (meant meaning.now))) }
{
    if scope.is_well_declared(meaning) {
        changed(scope, told, name, meaning);
    }
}

/// Tells where a name may not be assigned, and gives the type of the variable.
pub fn target(scope: &NameScope, told: &mut FirstFault, name: &Name) -> Option<TextType>
    ensures told { (at : Scope) → Fits scope.now at
        → told.new.found ≡ with_first told.old.found (rule.target_faults at name.now (meaning_of at name.now.text)) }
    ensures ty { (at : Scope) → Fits scope.now at → option_map text_value result ≡ rule.target_type (meaning_of at name.now.text) }
{
    match scope.meaning(name.text.as_str()) {
        None => {
            told.tell(Fault {
                code: 6,
                place: name.place,
            });
            None
        }
        Some(meaning) => {
            assigned(scope, told, name, meaning);
            meaning.ty()
        }
    }
}
