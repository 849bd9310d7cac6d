ghost use Rattle.std.specs.Prelude.{◌≡◌, OnOk, Some};
ghost use Rattle.std.specs.Option.{option_map};
ghost use Rattle.slang_tree.specs.DeclTree.{return_tree};
ghost use Rattle.type_rules.specs.Meanings.{Scope};
ghost use Rattle.type_rules.specs.Projects as rule;
ghost use Rattle.type_faults.specs.FirstFault.{with_first};
ghost use Rattle.text_types.specs.TextType.{text_value};
ghost use Rattle.text_types.specs.Found.{seen};
ghost use Rattle.name_scopes.specs.Fits.{Fits};
ghost use Rattle.return_judging.specs.Missing.{missing_faults, returned_faults};

use crate::NoMemory;
use claim_judging::against;
use expression_forms::Context;
use expression_judging::judged;
use name_scopes::NameScope;
use slang_tree::{Fault, Name, Return};
use std::alloc::Global;
use text_types::{Found, TextType};
use type_faults::FirstFault;

/// Tells where a return is missing, of a method with a result of this type.
#[tactic(auto, using(text_types::proofs::Parts::with_none))]
fn missing_of(told: &mut FirstFault, name: &Name, has_signature: bool, ty: TextType)
    ensures { told.new.found ≡ with_first told.old.found (missing_faults name.now has_signature (Some (text_value ty))) }
{
    match ty {
        TextType::Unit => {}
        TextType::Z | TextType::B | TextType::Record(_) | TextType::Sequence(_) => {
            told.tell_unless(
                !has_signature,
                Fault {
                    code: 8,
                    place: name.place,
                },
            );
        }
    }
}

/// The same, where the type of the result may have a fault.
#[tactic(auto, using(text_types::proofs::Parts::with_none))]
fn missing(told: &mut FirstFault, name: &Name, has_signature: bool, ty: Option<TextType>)
    ensures { told.new.found ≡ with_first told.old.found (missing_faults name.now has_signature (option_map text_value ty)) }
{
    match ty {
        None => {}
        Some(ty) => missing_of(told, name, has_signature, ty),
    }
}

/// Tells what is wrong with a value that is returned, against the type of the result.
fn returned_of(told: &mut FirstFault, ty: TextType, part: Found)
    ensures { told.new.found ≡ with_first told.old.found (returned_faults (Some (text_value ty)) (seen part)) }
{
    match ty {
        TextType::Unit => {
            told.tell_unless(
                part.ty.is_none(),
                Fault {
                    code: 8,
                    place: part.place,
                },
            );
        }
        TextType::Z | TextType::B | TextType::Record(_) | TextType::Sequence(_) => {
            against(told, ty, part);
        }
    }
}

/// The same, where the type of the result may have a fault.
#[tactic(auto, using(text_types::proofs::Parts::with_none))]
fn returned_value(told: &mut FirstFault, ty: Option<TextType>, part: Found)
    ensures { told.new.found ≡ with_first told.old.found (returned_faults (option_map text_value ty) (seen part)) }
{
    match ty {
        None => {}
        Some(ty) => returned_of(told, ty, part),
    }
}

/// Tells what is wrong with the return of a method with a result of this type, or with its absence.
pub fn judged_return(
    alloc: Global,
    scope: &mut NameScope,
    told: &mut FirstFault,
    name: &Name,
    has_signature: bool,
    ty: Option<TextType>,
    returned: &Option<Return>,
) -> Result<(), NoMemory>
    ensures told { OnOk result ((at : Scope) → Fits scope.old at → told.new.found ≡ with_first told.old.found
        (rule.return_faults at name.now has_signature (option_map text_value ty) (option_map return_tree returned.now))) }
    ensures scope { OnOk result (scope.new ≡ scope.old) }
{
    match returned {
        None => {
            missing(told, name, has_signature, ty);
            Ok(())
        }
        Some(returned) => {
            let found = judged(&returned.value, alloc, scope, told, Context::Program)?;
            returned_value(told, ty, found);
            Ok(())
        }
    }
}
