ghost use Rattle.std.specs.Prelude.{◌≡◌, Option};
ghost use Rattle.std.specs.Option.{option_map};
ghost use Rattle.slang_tree.specs.declared.place.Fault.{Fault};
ghost use Rattle.slang_tree.specs.TypeTree.{type_tree};
ghost use Rattle.type_rules.specs.Judged.{Judged, faults_against_optional};
ghost use Rattle.type_rules.specs.Meanings.{Scope};
ghost use Rattle.type_rules.specs.TypeNames.{judged_type};
ghost use Rattle.type_rules.specs.Statements.{any_but_unit, unit_faults};
ghost use Rattle.type_faults.specs.FirstFault.{with_first};
ghost use Rattle.text_types.specs.TextType.{text_value};
ghost use Rattle.text_types.specs.Found.{IsJudged, seen};
ghost use Rattle.name_scopes.specs.Fits.{Fits};
ghost use Rattle.name_scopes.specs.Meanings.{declared_in};
ghost use Rattle.value_judging.specs.IsDeclared.{IsDeclared, IsWritten};

use claim_judging::against_optional;
use name_scopes::NameScope;
use slang_tree::{Fault, TypeName};
use text_types::{Found, TextType};
use type_faults::FirstFault;
use type_names::variable_type;

/// The type of what has this value, where none is written: any but `Unit`.
#[tactic(auto, using(text_types::proofs::Parts::with_none))]
fn of_value(told: &mut FirstFault, value: Found) -> Option<TextType>
    ensures told { told.new.found ≡ with_first told.old.found (unit_faults (option_map text_value value.ty) value.place) }
    ensures ty { option_map text_value result ≡ any_but_unit (option_map text_value value.ty) }
{
    match value.ty {
        Some(TextType::Unit) => {
            told.tell(Fault {
                code: 8,
                place: value.place,
            });
            None
        }
        ty => ty,
    }
}

/// The type that is written, of which the value is to be.
fn as_written(
    scope: &NameScope,
    told: &mut FirstFault,
    ty: &TypeName,
    value: Found,
) -> Option<TextType>
    ensures { IsWritten told.old.found told.new.found result (judged_type (declared_in scope.now.names) (type_tree ty.now)) (seen value) }
{
    let written = variable_type(scope, told, ty);
    against_optional(told, written.ty, value);
    written.ty
}

/// The type of what is declared with a value, of which the faults were told of before.
pub fn declared(
    scope: &NameScope,
    told: &mut FirstFault,
    ty: &Option<TypeName>,
    value: Found,
) -> Option<TextType>
    ensures { (at : Scope) (before : Option Fault) (it : Judged) → Fits scope.now at → IsJudged before told.old.found value it
        → IsDeclared before told.new.found result at (option_map type_tree ty.now) it }
{
    match ty {
        None => of_value(told, value),
        Some(ty) => as_written(scope, told, ty, value),
    }
}
