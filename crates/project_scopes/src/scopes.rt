ghost use Rattle.std.specs.Prelude.{◌≡◌, [], IfOk, List, OnOk, map};
ghost use Rattle.type_rules.specs.Meanings.{Declared, Field};
ghost use Rattle.type_rules.specs.Projects as rule;
ghost use Rattle.name_scopes.specs.Fits.{Fits};
ghost use Rattle.project_files.specs.Files.{decl_of};
ghost use Rattle.record_parts.specs.Parts.{allowed_fields};
ghost use Rattle.signature_judging.specs.Knows.{Knows};
ghost use Rattle.declared_meanings.specs.Declares.{NumbersMethods};
ghost use Rattle.record_judging.specs.Fields.{AreFields};
ghost use Rattle.project_scopes.specs.IsProject.{AreFieldsOf, IsOutline, IsProject};

use crate::NoMemory;
use declared_meanings::meanings;
use name_maps::NameMap;
use name_scopes::{Meaning, NameScope, RecordFields};
use project_files::method_numbers;
use record_judging::{record_table, written_fields};
use record_parts::allowed_fields;
use slang_tree::Decl;
use sqlite_items::Items;
use std::alloc::Global;

/// The outline of a project, in which the types and constants of its declarations are read, its scope, and which fields of each
/// record may be of their types.
#[derive(Drop)]
pub struct ProjectScopes {
    pub outline: NameScope,
    pub scope: NameScope,
    pub allowed: Items<Items<bool>>,
}

/// A scope of names and records.
fn scope_over(alloc: Global, names: NameMap<Meaning>, records: Items<RecordFields>) -> NameScope
    ensures fits { (declared : List Declared) (fields : List (List Field)) → Knows names declared → AreFields records fields
        → Fits result (rule.scope_over declared fields) }
    ensures names { result.names ≡ names }
{
    NameScope {
        names,
        records,
        covered: NameMap::new(alloc),
        outside: Items::new(alloc),
        locals: 0,
        depth: 0,
    }
}

fn empty_scope(alloc: Global) -> NameScope
    ensures { Fits result (rule.scope_over [] []) }
{
    scope_over(alloc, NameMap::new(alloc), Items::new(alloc))
}

/// What the names of a project mean as types, in a scope without fields.
fn outline_names(
    alloc: Global,
    numbers: &NameMap<u32>,
    decls: &[&Decl],
) -> Result<NameScope, NoMemory>
    ensures { IfOk result (λ bare. NumbersMethods numbers.now (map decl_of decls.now) → IsOutline bare (map decl_of decls.now)) }
{
    let mut empty = empty_scope(alloc);
    let names = meanings(alloc, &mut empty, numbers, decls)?;
    Ok(scope_over(alloc, names, Items::new(alloc)))
}

/// What is known of the fields of each record, and which of them may be of their types.
fn fields_of(
    alloc: Global,
    bare: &NameScope,
    decls: &[&Decl],
) -> Result<(Items<RecordFields>, Items<Items<bool>>), NoMemory>
    ensures { IfOk result (λ known. Knows bare.now.names (rule.outline_names (map decl_of decls.now)) → AreFieldsOf known.0 known.1 (map decl_of decls.now)) }
{
    let types = written_fields(alloc, bare, decls)?;
    let allowed = allowed_fields(alloc, types.as_slice())?;
    let records = record_table(alloc, bare, allowed.as_slice(), decls)?;
    Ok((records, allowed))
}

/// What is in scope everywhere, where the outline is read.
fn whole_scope(
    alloc: Global,
    outline: &mut NameScope,
    numbers: &NameMap<u32>,
    allowed: &[Items<bool>],
    decls: &[&Decl],
) -> Result<NameScope, NoMemory>
    ensures fits { IfOk result (λ scope. Fits outline.old (rule.outline_of (map decl_of decls.now)) → NumbersMethods numbers.now (map decl_of decls.now)
        → allowed.now ≡ allowed_fields (rule.written_fields (map decl_of decls.now)) → Fits scope (rule.scope_of (map decl_of decls.now))) }
    ensures scope { OnOk result (outline.new ≡ outline.old) }
{
    let records = record_table(alloc, outline, allowed, decls)?;
    let names = meanings(alloc, outline, numbers, decls)?;
    Ok(scope_over(alloc, names, records))
}

/// The outline of a project, and which fields of each record may be of their types.
fn outline_of(
    alloc: Global,
    numbers: &NameMap<u32>,
    decls: &[&Decl],
) -> Result<(NameScope, Items<Items<bool>>), NoMemory>
    ensures { IfOk result (λ known. NumbersMethods numbers.now (map decl_of decls.now)
        → (Fits known.0 (rule.outline_of (map decl_of decls.now))) × (known.1 ≡ allowed_fields (rule.written_fields (map decl_of decls.now)))) }
{
    let bare = outline_names(alloc, numbers, decls)?;
    let (records, allowed) = fields_of(alloc, &bare, decls)?;
    Ok((with_records(alloc, bare, records), allowed))
}

/// A scope with other records.
fn with_records(alloc: Global, bare: NameScope, records: Items<RecordFields>) -> NameScope
    ensures { (declared : List Declared) (fields : List (List Field)) → Knows bare.names declared → AreFields records fields
        → Fits result (rule.scope_over declared fields) }
{
    scope_over(alloc, bare.names, records)
}

/// The scopes of a project with these declarations.
pub fn scopes_of(alloc: Global, decls: &[&Decl]) -> Result<ProjectScopes, NoMemory>
    ensures { IfOk result (λ known. IsProject known (map decl_of decls.now)) }
{
    let numbers = method_numbers(alloc, decls)?;
    let (mut outline, allowed) = outline_of(alloc, &numbers, decls)?;
    let scope = whole_scope(alloc, &mut outline, &numbers, allowed.as_slice(), decls)?;
    Ok(ProjectScopes {
        outline,
        scope,
        allowed,
    })
}
