ghost use Rattle.std.specs.Prelude.{◌≡◌, [], IfOk, List, OnOk, map, option_copied};
ghost use Rattle.std.specs.Option.{option_map};
ghost use Rattle.slang_tree.specs.DeclTree.{decl_tree, field_tree, record_decl_tree};
ghost use Rattle.type_rules.specs.Meanings.{Declared};
ghost use Rattle.type_rules.specs.Projects as rule;
ghost use Rattle.project_files.specs.Files.{decl_of};
ghost use Rattle.record_parts.specs.Chains.{fields_seen, types_seen};
ghost use Rattle.signature_judging.specs.Knows.{Knows};
ghost use Rattle.record_judging.specs.Written.{types_written, written_with};

use crate::NoMemory;
use name_scopes::NameScope;
use slang_tree::{Decl, FieldDecl, RecordDecl};
use sqlite_items::Items;
use std::alloc::Global;
use text_types::TextType;
use type_faults::FirstFault;
use type_names::variable_type;

/// A declaration, if it is a record.
pub fn record_of(decl: &Decl) -> Option<&RecordDecl>
    ensures { option_map record_decl_tree (option_copied result) ≡ rule.record_of (decl_tree decl.now) }
{
    match decl {
        Decl::Record(record) => Some(record),
        _ => None,
    }
}

/// The type of each field as it is written.
fn types_written(
    alloc: Global,
    outline: &NameScope,
    fields: &[FieldDecl],
) -> Result<Items<Option<TextType>>, NoMemory>
    ensures { IfOk result (λ types. (names : List Declared) → Knows outline.now.names names → fields_seen types ≡ types_written names (map field_tree fields.now)) }
{
    let mut types = Items::new(alloc);
    for field in fields {
        let mut told = FirstFault::none();
        let found = variable_type(outline, &mut told, &field.ty);
        types.push(found.ty)?;
    }
    Ok(types)
}

/// The types of the fields of each record, one more behind others.
fn add_written(
    alloc: Global,
    outline: &NameScope,
    types: &mut Items<Items<Option<TextType>>>,
    decls: &[&Decl],
) -> Result<(), NoMemory>
    ensures { OnOk result ((names : List Declared) → Knows outline.now.names names → types.old ≡ [] → types_seen types.new ≡ written_with names (map decl_of decls.now)) }
{
    for decl in decls {
        match record_of(decl) {
            None => {}
            Some(record) => {
                let own = types_written(alloc, outline, record.fields.as_slice())?;
                types.push(own)?
            }
        }
    }
    Ok(())
}

/// The types of the fields of each record as they are written.
pub fn written_fields(
    alloc: Global,
    outline: &NameScope,
    decls: &[&Decl],
) -> Result<Items<Items<Option<TextType>>>, NoMemory>
    ensures { IfOk result (λ types. (names : List Declared) → Knows outline.now.names names → types_seen types ≡ written_with names (map decl_of decls.now)) }
{
    let mut types = Items::new(alloc);
    add_written(alloc, outline, &mut types, decls)?;
    Ok(types)
}
