ghost use Rattle.std.specs.Prelude.{◌≡◌, ◌++◌, ◌∷◌, List, OnOk, filter_map, length};
ghost use Rattle.slang_tree.specs.DeclTree.{DeclTree, record_decl, record_decl_tree};
ghost use Rattle.type_rules.specs.Projects as rule;
ghost use Rattle.type_faults.specs.FirstFault.{with_first};
ghost use Rattle.project_scopes.specs.IsProject.{IsProject};

use crate::NoMemory;
use project_scopes::ProjectScopes;
use record_judging::{allowed_of, judged_fields};
use slang_tree::RecordDecl;
use std::alloc::Global;
use type_faults::FirstFault;

/// Tells what is wrong with the fields of a record, behind so many records.
pub fn judged_record(
    alloc: Global,
    known: &ProjectScopes,
    told: &mut FirstFault,
    records: usize,
    class: &RecordDecl,
) -> Result<(), NoMemory>
    ensures { OnOk result ((decls front rest : List DeclTree) → IsProject known.now decls → decls ≡ front ++ record_decl (record_decl_tree class.now) ∷ rest
        → records ≡ length (filter_map rule.record_of front)
        → told.new.found ≡ with_first told.old.found (rule.inner_faults decls records (record_decl (record_decl_tree class.now)))) }
{
    let own = allowed_of(known.allowed.as_slice(), records);
    judged_fields(alloc, &known.outline, told, own, class.fields.as_slice())?;
    Ok(())
}
