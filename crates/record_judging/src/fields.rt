ghost use Rattle.std.specs.Prelude.{◌≡◌, ℕ, [], IfOk, List, OnOk, None, Some, false, get_or, if◌then◌else◌, map};
ghost use Rattle.std.specs.Option.{option_map};
ghost use Rattle.slang_tree.specs.DeclTree.{field_tree};
ghost use Rattle.type_rules.specs.Meanings.{Declared};
ghost use Rattle.type_rules.specs.Records.{FieldTypes};
ghost use Rattle.type_rules.specs.Projects as rule;
ghost use Rattle.type_faults.specs.FirstFault.{with_first};
ghost use Rattle.signature_judging.specs.Knows.{Knows};
ghost use Rattle.record_judging.specs.Fields.{AreAllFields, AreAllowed, IsField, IsFields, typed_by, with_type};

use crate::NoMemory;
use name_maps::NameMap;
use name_scopes::{NameScope, RecordFields};
use slang_tree::{Fault, FieldDecl};
use sqlite_items::Items;
use std::alloc::Global;
use text_types::TextType;
use type_faults::FirstFault;
use type_names::variable_type;

fn told_at(table: &[bool], at: usize) -> bool
    ensures { result ≡ get_or table.now at false }
{
    match table.get(at) {
        None => false,
        Some(told) => *told,
    }
}

/// The type of one field more behind those of others, which all have types or not.
fn add_type(
    types: &mut Items<TextType>,
    typed: bool,
    ty: Option<TextType>,
) -> Result<bool, NoMemory>
    ensures { IfOk result (λ all. typed_by all types.new ≡ with_type (typed_by typed types.old) ty) }
{
    match ty {
        None => Ok(false),
        Some(ty) => {
            types.push(ty)?;
            Ok(typed)
        }
    }
}

fn allowed_type(allowed: bool, ty: Option<TextType>) -> Option<TextType>
    ensures { result ≡ (if allowed then ty else None) }
{
    if allowed { ty } else { None }
}

/// Tells what is wrong with a field at this place, by which fields may be of their types, and answers its type.
fn judged_field(
    outline: &NameScope,
    told: &mut FirstFault,
    by_name: &NameMap<Option<TextType>>,
    own: &[bool],
    at: usize,
    field: &FieldDecl,
) -> Option<TextType>
    ensures { (names : List Declared) → Knows outline.now.names names
        → IsField told.old.found told.new.found result by_name.now own.now at names (field_tree field.now) }
{
    let known = by_name.contains(field.name.text.as_str());
    told.tell_unless(
        !known,
        Fault {
            code: 7,
            place: field.name.place,
        },
    );
    let found = variable_type(outline, told, &field.ty);
    let allowed = told_at(own, at);
    told.tell_unless(
        allowed,
        Fault {
            code: 8,
            place: found.place,
        },
    );
    allowed_type(allowed, found.ty)
}

/// The types of fields, and the type of each by its name; tells what is wrong with them. Whether all have types.
fn add_fields(
    alloc: Global,
    outline: &NameScope,
    told: &mut FirstFault,
    own: &[bool],
    types: &mut Items<TextType>,
    by_name: &mut NameMap<Option<TextType>>,
    fields: &[FieldDecl],
) -> Result<bool, NoMemory>
    ensures { IfOk result (λ typed. (names : List Declared) (written : FieldTypes) (n : ℕ) → Knows outline.now.names names
        → AreAllowed own.now names written n (map field_tree fields.now) → types.old ≡ [] → by_name.old ≡ []
        → AreAllFields told.old.found told.new.found typed types.new by_name.new names written n (map field_tree fields.now)) }
{
    let mut typed = true;
    for (at, field) in fields.iter().enumerate() {
        let ty = judged_field(outline, told, by_name, own, at, field);
        typed = add_type(types, typed, ty)?;
        by_name.add(alloc, field.name.text.as_str(), ty)?;
    }
    Ok(typed)
}

/// The types, where all are there.
fn all_types(typed: bool, types: Items<TextType>) -> Option<Items<TextType>>
    ensures { result ≡ typed_by typed types }
{
    if typed { Some(types) } else { None }
}

/// What is known of the fields of a record, by which of them may be of their types; tells what is wrong with them.
pub fn judged_fields(
    alloc: Global,
    outline: &NameScope,
    told: &mut FirstFault,
    own: &[bool],
    fields: &[FieldDecl],
) -> Result<RecordFields, NoMemory>
    ensures fields { IfOk result (λ known. (names : List Declared) (written : FieldTypes) (n : ℕ) → Knows outline.now.names names
        → AreAllowed own.now names written n (map field_tree fields.now) → IsFields known (rule.fields_from names written n 0 (map field_tree fields.now))) }
    ensures told { OnOk result ((names : List Declared) (written : FieldTypes) (n : ℕ) → Knows outline.now.names names
        → AreAllowed own.now names written n (map field_tree fields.now)
        → told.new.found ≡ with_first told.old.found (rule.field_faults names written n 0 [] (map field_tree fields.now))) }
{
    let mut types = Items::new(alloc);
    let mut by_name = NameMap::new(alloc);
    let typed = add_fields(alloc, outline, told, own, &mut types, &mut by_name, fields)?;
    Ok(RecordFields {
        types: all_types(typed, types),
        by_name,
    })
}
