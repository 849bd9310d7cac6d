ghost use Rattle.std.specs.Prelude.{◌≡◌, [], IfOk, map};
ghost use Rattle.std.specs.Option.{option_map};
ghost use Rattle.slang_tree.specs.TypeTree.{type_tree};
ghost use Rattle.slang_tree.specs.DeclTree.{const_tree, consts_of};
ghost use Rattle.lk_claims.specs.Claim.{value_type};
ghost use Rattle.type_rules.specs.Meanings.{Scope, meaning_of};
ghost use Rattle.type_rules.specs.Judged as rule;
ghost use Rattle.type_rules.specs.Constants.{judged_const as found_const, judged_consts};
ghost use Rattle.type_rules.specs.Expressions.{written_elements};
ghost use Rattle.typed_texts.specs.Claims as typed;
ghost use Rattle.typed_texts.specs.Values.{record_meant};
ghost use Rattle.text_types.specs.TextType.{text_value};
ghost use Rattle.name_scopes.specs.Fits.{Fits};

use crate::NoMemory;
use constant_judging::judged_const;
use lk_claims::Ty;
use name_scopes::NameScope;
use slang_tree::{Const, TypeName};
use sqlite_items::at;
use std::alloc::Global;
use text_types::TextType;
use type_faults::FirstFault;
use typed_names::ty_of;
use typed_parts::{Head, front_ty, head_named};

/// The type of a constant, which is `Unit` where it has none.
fn known_type(constant: &Const, alloc: Global, scope: &NameScope) -> Result<TextType, NoMemory>
    ensures { IfOk result (λ ty. (at : Scope) → Fits scope.now at → text_value ty ≡ rule.known_type (found_const at (const_tree constant.now))) }
{
    let mut told = FirstFault::none();
    let found = judged_const(constant, alloc, scope, &mut told)?;
    Ok(found.known())
}

/// The type of elements of which none is written in front: that of the first.
fn first_ty(elements: &[Const], alloc: Global, scope: &NameScope) -> Result<Ty, NoMemory>
    ensures { IfOk result (λ ty. (at : Scope) → Fits scope.now at
        → value_type ty ≡ typed.type_of_elements [] (judged_consts at (consts_of (map const_tree elements.now)))) }
{
    match at(elements, 0) {
        None => Ok(Ty::Unit),
        Some(first) => ty_of(alloc, known_type(first, alloc, scope)?),
    }
}

/// The type of the elements of a sequence: it is written, or that of the first.
pub fn elements_ty(
    ty: &Option<TypeName>,
    elements: &[Const],
    alloc: Global,
    scope: &NameScope,
) -> Result<Ty, NoMemory>
    ensures { IfOk result (λ made. (at : Scope) → Fits scope.now at
        → value_type made ≡ typed.type_of_elements (written_elements at (option_map type_tree ty.now)) (judged_consts at (consts_of (map const_tree elements.now)))) }
{
    match ty {
        None => first_ty(elements, alloc, scope),
        Some(ty) => Ok(front_ty(scope, ty)),
    }
}

/// The number of a record by its name, or 0.
pub fn record_number(scope: &NameScope, name: &str) -> u32
    ensures { (at : Scope) → Fits scope.now at → result ≡ record_meant (meaning_of at name.now) }
{
    match head_named(scope, name) {
        Head::Record(number) => number,
        Head::Value => 0,
        Head::Method(_) => 0,
    }
}
