ghost use Rattle.std.specs.Prelude.{◌≡◌};
ghost use Rattle.std.specs.Option.{option_map};
ghost use Rattle.type_rules.specs.Judged.{faults_against, faults_against_optional};
ghost use Rattle.type_rules.specs.Meanings.{Scope};
ghost use Rattle.type_rules.specs.Steps.{new_name_faults};
ghost use Rattle.type_faults.specs.FirstFault.{with_first};
ghost use Rattle.text_types.specs.TextType.{text_value};
ghost use Rattle.text_types.specs.Found.{seen};
ghost use Rattle.name_scopes.specs.Fits.{Fits};

use name_scopes::NameScope;
use slang_tree::{Fault, Name};
use text_types::{Found, TextType, expects};
use type_faults::FirstFault;

/// Tells where a part is not of this type, if it has one at all.
#[tactic(auto, using(text_types::proofs::Parts::with_none))]
pub fn against(told: &mut FirstFault, ty: TextType, part: Found)
    ensures { told.new.found ≡ with_first told.old.found (faults_against (text_value ty) (seen part)) }
{
    match part.ty {
        None => {}
        Some(_) => expects(told, ty, part),
    }
}

/// The same, where the type itself may have a fault.
#[tactic(auto, using(text_types::proofs::Parts::with_none))]
pub fn against_optional(told: &mut FirstFault, ty: Option<TextType>, part: Found)
    ensures { told.new.found ≡ with_first told.old.found (faults_against_optional (option_map text_value ty) (seen part)) }
{
    match ty {
        None => {}
        Some(ty) => against(told, ty, part),
    }
}

/// Tells where a name that is declared has a meaning before.
pub fn new_name(scope: &NameScope, told: &mut FirstFault, name: &Name)
    ensures { (at : Scope) → Fits scope.now at → told.new.found ≡ with_first told.old.found (new_name_faults at name.now) }
{
    let known = scope.is_known(name.text.as_str());
    told.tell_unless(
        !known,
        Fault {
            code: 7,
            place: name.place,
        },
    );
}
