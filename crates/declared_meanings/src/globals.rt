ghost use Rattle.std.specs.Prelude.{◌≡◌, IfOk, Some, not};
ghost use Rattle.std.specs.Option.{option_map};
ghost use Rattle.slang_tree.specs.DeclTree.{global_decl_tree};
ghost use Rattle.slang_tree.specs.TypeTree.{type_tree};
ghost use Rattle.program_trees.specs.Variables.{global};
ghost use Rattle.type_rules.specs.Constants as constants;
ghost use Rattle.type_rules.specs.Judged.{Judged};
ghost use Rattle.type_rules.specs.Meanings.{Scope, variable};
ghost use Rattle.type_rules.specs.Statements as rule;
ghost use Rattle.text_types.specs.TextType.{text_value};
ghost use Rattle.text_types.specs.Found.{bare, seen};
ghost use Rattle.name_scopes.specs.Fits.{Fits};
ghost use Rattle.name_scopes.specs.Meanings.{meant};

use crate::NoMemory;
use constant_judging::judged_const;
use name_scopes::{Meaning, NameScope};
use slang_tree::{GlobalDecl, TypeName};
use std::alloc::Global;
use text_types::{Found, TextType};
use type_faults::FirstFault;
use type_names::variable_type;

fn unless_unit(ty: TextType) -> Option<TextType>
    ensures { option_map text_value result ≡ rule.any_but_unit (Some (text_value ty)) }
{
    match ty {
        TextType::Unit => None,
        TextType::Z | TextType::B | TextType::Record(_) | TextType::Sequence(_) => Some(ty),
    }
}

/// The type of a value for which none is written: any but `Unit`.
fn any_but_unit(ty: Option<TextType>) -> Option<TextType>
    ensures { option_map text_value result ≡ rule.any_but_unit (option_map text_value ty) }
{
    match ty {
        None => None,
        Some(ty) => unless_unit(ty),
    }
}

/// The type that is written.
fn written_type(scope: &NameScope, ty: &TypeName) -> Option<TextType>
    ensures { (at : Scope) (value : Judged) → Fits scope.now at → option_map text_value result ≡ rule.declared_type at (Some (type_tree ty.now)) value }
{
    let mut told = FirstFault::none();
    variable_type(scope, &mut told, ty).ty
}

/// The type of what is declared with this value.
fn declared_type(scope: &NameScope, ty: &Option<TypeName>, found: Found) -> Option<TextType>
    ensures { (at : Scope) (value : Judged) → Fits scope.now at → seen found ≡ bare value
        → option_map text_value result ≡ rule.declared_type at (option_map type_tree ty.now) value }
{
    match ty {
        None => any_but_unit(found.ty),
        Some(ty) => written_type(scope, ty),
    }
}

/// What the name of a global means, by its number.
pub fn global_meaning(
    alloc: Global,
    outline: &NameScope,
    number: u32,
    decl: &GlobalDecl,
) -> Result<Meaning, NoMemory>
    ensures { IfOk result (λ meaning. (at : Scope) → Fits outline.now at → meant meaning
        ≡ variable (global number) (not (global_decl_tree decl.now).fixed)
        (rule.declared_type at (global_decl_tree decl.now).ty (constants.judged_const at (global_decl_tree decl.now).init))) }
{
    let mut told = FirstFault::none();
    let found = judged_const(&decl.init, alloc, outline, &mut told)?;
    let ty = declared_type(outline, &decl.ty, found);
    Ok(Meaning::Global {
        number,
        changes: !decl.fixed,
        ty,
    })
}
