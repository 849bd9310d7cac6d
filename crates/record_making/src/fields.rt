ghost use Rattle.std.specs.Prelude.{◌≡◌, ℕ, IfOk, List, None, false, get_or, if◌then◌else◌, map};
ghost use Rattle.slang_tree.specs.TypeTree.{type_tree};
ghost use Rattle.slang_tree.specs.DeclTree.{field_tree};
ghost use Rattle.lk_claims.specs.Claim.{value_type};
ghost use Rattle.type_rules.specs.Meanings.{Declared};
ghost use Rattle.type_rules.specs.TypeNames.{judged_type};
ghost use Rattle.type_rules.specs.Records.{FieldTypes};
ghost use Rattle.type_rules.specs.Projects as rule;
ghost use Rattle.typed_texts.specs.Code.{type_declared};
ghost use Rattle.text_types.specs.TextType.{text_value};
ghost use Rattle.signature_judging.specs.Knows.{Knows};
ghost use Rattle.record_judging.specs.Fields.{AreAllowed};
ghost use Rattle.record_making.specs.Records.{HasFieldTypes};

use crate::NoMemory;
use lk_programs::FieldTy;
use name_scopes::NameScope;
use owned_results::both;
use slang_tree::FieldDecl;
use sqlite_items::Items;
use std::alloc::Global;
use text_types::TextType;
use type_faults::FirstFault;
use type_names::variable_type;
use typed_names::ty_of;

/// Whether the field at this place may be of its type.
fn may_be_typed(own: &[bool], at: usize) -> bool
    ensures { result ≡ get_or own.now at false }
{
    match own.get(at) {
        None => false,
        Some(allowed) => *allowed,
    }
}

/// The type that is written for a field, or `Unit` where it may not be of this type.
fn written_type(outline: &NameScope, allowed: bool, field: &FieldDecl) -> TextType
    ensures { (names : List Declared) → Knows outline.now.names names
        → text_value result ≡ type_declared (if allowed then (judged_type names (type_tree field.now.ty)).type else None) }
{
    if allowed {
        let mut told = FirstFault::none();
        let found = variable_type(outline, &mut told, &field.ty);
        found.known()
    } else {
        TextType::Unit
    }
}

/// A field with its type.
fn made_field(
    alloc: Global,
    outline: &NameScope,
    allowed: bool,
    field: &FieldDecl,
) -> Result<FieldTy, NoMemory>
    ensures name { IfOk result (λ made. made.name ≡ field.now.name.text) }
    ensures ty { IfOk result (λ made. (names : List Declared) → Knows outline.now.names names
        → value_type made.ty ≡ type_declared (if allowed then (judged_type names (type_tree field.now.ty)).type else None)) }
{
    let ty = ty_of(alloc, written_type(outline, allowed, field));
    let (name, ty) = both(field.name.text.copy(alloc), ty)?;
    Ok(FieldTy { name, ty })
}

/// The fields of a record, of which these may be of their types.
pub fn made_fields(
    alloc: Global,
    outline: &NameScope,
    own: &[bool],
    fields: &[FieldDecl],
) -> Result<Items<FieldTy>, NoMemory>
    ensures { IfOk result (λ made. (names : List Declared) (written : FieldTypes) (n : ℕ) → Knows outline.now.names names
        → AreAllowed own.now names written n (map field_tree fields.now) → HasFieldTypes made (rule.fields_from names written n 0 (map field_tree fields.now))) }
{
    let mut made = Items::new(alloc);
    for at in 0..fields.len() {
        let allowed = may_be_typed(own, at);
        made.push(made_field(alloc, outline, allowed, &fields[at])?)?;
    }
    Ok(made)
}
