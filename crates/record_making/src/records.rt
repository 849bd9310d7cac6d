ghost use Rattle.std.specs.Prelude.{◌≡◌, ℕ, IfOk, List, map};
ghost use Rattle.slang_tree.specs.DeclTree.{field_tree};
ghost use Rattle.type_rules.specs.Meanings.{Declared};
ghost use Rattle.type_rules.specs.Records.{FieldTypes};
ghost use Rattle.type_rules.specs.Projects as rule;
ghost use Rattle.project_files.specs.Files.{decl_of};
ghost use Rattle.record_parts.specs.Parts.{allowed_fields};
ghost use Rattle.signature_judging.specs.Knows.{Knows};
ghost use Rattle.record_judging.specs.Fields.{AreAllowed};
ghost use Rattle.record_making.specs.Records.{AreRecords, AreRecordsOf, HasFieldTypes, record_seen, written_of};

use crate::NoMemory;
use crate::fields::made_fields;
use crate::found::records_among;
use lk_programs::RecordTy;
use name_scopes::NameScope;
use owned_results::both;
use record_judging::allowed_of;
use slang_tree::{Decl, RecordDecl};
use sqlite_items::Items;
use std::alloc::Global;

/// A record with its fields, of which these may be of their types.
fn made_record(
    alloc: Global,
    outline: &NameScope,
    own: &[bool],
    decl: &RecordDecl,
) -> Result<RecordTy, NoMemory>
    ensures name { IfOk result (λ made. made.name ≡ decl.now.name.text) }
    ensures fields { IfOk result (λ made. (names : List Declared) (written : FieldTypes) (n : ℕ) → Knows outline.now.names names
        → AreAllowed own.now names written n (map field_tree decl.now.fields) → HasFieldTypes made.fields (rule.fields_from names written n 0 (map field_tree decl.now.fields))) }
{
    let fields = made_fields(alloc, outline, own, decl.fields.as_slice());
    let (name, fields) = both(decl.name.text.copy(alloc), fields)?;
    Ok(RecordTy { name, fields })
}

/// The records of declarations that are records.
fn made_each(
    alloc: Global,
    outline: &NameScope,
    allowed: &[Items<bool>],
    records: &[&RecordDecl],
) -> Result<Items<RecordTy>, NoMemory>
    ensures { IfOk result (λ made. (names : List Declared) → Knows outline.now.names names
        → allowed.now ≡ allowed_fields (written_of names (map record_seen records.now))
        → AreRecords made (map record_seen records.now) (rule.records_from names (written_of names (map record_seen records.now)) 0 (map record_seen records.now))) }
{
    let mut made = Items::new(alloc);
    for n in 0..records.len() {
        let own = allowed_of(allowed, n);
        made.push(made_record(alloc, outline, own, records[n])?)?;
    }
    Ok(made)
}

/// The records of declarations, by which of their fields may be of their types.
pub fn made_records(
    alloc: Global,
    outline: &NameScope,
    allowed: &[Items<bool>],
    decls: &[&Decl],
) -> Result<Items<RecordTy>, NoMemory>
    ensures { IfOk result (λ made. Knows outline.now.names (rule.outline_names (map decl_of decls.now))
        → allowed.now ≡ allowed_fields (rule.written_fields (map decl_of decls.now)) → AreRecordsOf made (map decl_of decls.now)) }
{
    let records = records_among(alloc, decls)?;
    made_each(alloc, outline, allowed, records.as_slice())
}
