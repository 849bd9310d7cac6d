ghost use Rattle.std.specs.Prelude.{◌≡◌, IfOk, filter_map, map, option_copied};
ghost use Rattle.std.specs.Option.{option_map};
ghost use Rattle.slang_tree.specs.DeclTree.{decl_tree, record_decl_tree};
ghost use Rattle.type_rules.specs.Projects as rule;
ghost use Rattle.project_files.specs.Files.{decl_of};
ghost use Rattle.record_making.specs.Records.{record_seen};

use crate::NoMemory;
use slang_tree::{Decl, RecordDecl};
use std::alloc::Global;

/// A declaration, if it is a record.
fn record_of(decl: &Decl) -> Option<&RecordDecl>
    ensures { option_map record_decl_tree (option_copied result) ≡ rule.record_of (decl_tree decl.now) }
{
    match decl {
        Decl::Record(record) => Some(record),
        _ => None,
    }
}

/// The records among declarations.
pub fn records_among<'a>(alloc: Global, decls: &[&'a Decl]) -> Result<Vec<&'a RecordDecl>, NoMemory>
    ensures { IfOk result (λ records. map record_seen records.items ≡ filter_map rule.record_of (map decl_of decls.now)) }
{
    let mut records: Vec<&RecordDecl> = Vec::new(alloc);
    for decl in decls {
        match record_of(decl) {
            None => {}
            Some(record) => records.push(record)?,
        }
    }
    Ok(records)
}
