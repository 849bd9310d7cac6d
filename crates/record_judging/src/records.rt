ghost use Rattle.std.specs.Prelude.{◌≡◌, [], IfOk, List, OnOk, filter_map, get_or, map};
ghost use Rattle.type_rules.specs.Meanings.{Declared};
ghost use Rattle.type_rules.specs.Projects as rule;
ghost use Rattle.project_files.specs.Files.{decl_of};
ghost use Rattle.record_parts.specs.Parts.{allowed_fields};
ghost use Rattle.signature_judging.specs.Knows.{Knows};
ghost use Rattle.record_judging.specs.Fields.{AreFields};
ghost use Rattle.record_judging.specs.Written.{written_with};

use crate::NoMemory;
use crate::fields::judged_fields;
use crate::written::record_of;
use name_scopes::{NameScope, RecordFields};
use slang_tree::Decl;
use sqlite_items::Items;
use std::alloc::Global;
use type_faults::FirstFault;

/// Which fields of record n may be of their types.
pub fn allowed_of(allowed: &[Items<bool>], n: usize) -> &[bool]
    ensures { result.now ≡ get_or allowed.now n [] }
{
    match allowed.get(n) {
        None => &[],
        Some(own) => own.as_slice(),
    }
}

fn add_records(
    alloc: Global,
    outline: &NameScope,
    records: &mut Items<RecordFields>,
    allowed: &[Items<bool>],
    decls: &[&Decl],
) -> Result<(), NoMemory>
    ensures { OnOk result ((names : List Declared) → Knows outline.now.names names → allowed.now ≡ allowed_fields (written_with names (map decl_of decls.now))
        → records.old ≡ [] → AreFields records.new (rule.records_from names (written_with names (map decl_of decls.now)) 0 (filter_map rule.record_of (map decl_of decls.now)))) }
{
    for decl in decls {
        match record_of(decl) {
            None => {}
            Some(record) => {
                let mut told = FirstFault::none();
                let own = allowed_of(allowed, records.len());
                let known = judged_fields(
                    alloc,
                    outline,
                    &mut told,
                    own,
                    record.fields.as_slice(),
                )?;
                records.push(known)?
            }
        }
    }
    Ok(())
}

/// What is known of the fields of each record, by which of them may be of their types.
pub fn record_table(
    alloc: Global,
    outline: &NameScope,
    allowed: &[Items<bool>],
    decls: &[&Decl],
) -> Result<Items<RecordFields>, NoMemory>
    ensures { IfOk result (λ records. (names : List Declared) → Knows outline.now.names names → allowed.now ≡ allowed_fields (written_with names (map decl_of decls.now))
        → AreFields records (rule.records_from names (written_with names (map decl_of decls.now)) 0 (filter_map rule.record_of (map decl_of decls.now)))) }
{
    let mut records = Items::new(alloc);
    add_records(alloc, outline, &mut records, allowed, decls)?;
    Ok(records)
}
