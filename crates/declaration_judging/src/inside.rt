ghost use Rattle.std.specs.Prelude.{◌≡◌, ◌++◌, ◌∷◌, List, OnOk, filter_map, length};
ghost use Rattle.slang_tree.specs.DeclTree.{DeclTree, decl_tree};
ghost use Rattle.type_rules.specs.Projects as rule;
ghost use Rattle.type_faults.specs.FirstFault.{with_first};
ghost use Rattle.project_scopes.specs.IsProject.{IsProject};

use crate::NoMemory;
use global_judging::{judged_global, judged_record};
use method_judging::judged_method;
use project_scopes::ProjectScopes;
use slang_tree::Decl;
use std::alloc::Global;
use type_faults::FirstFault;

/// Tells what is wrong inside a declaration, behind so many records.
pub fn judged_inside(
    alloc: Global,
    known: &mut ProjectScopes,
    told: &mut FirstFault,
    records: usize,
    decl: &Decl,
) -> Result<(), NoMemory>
    ensures told { OnOk result ((decls front rest : List DeclTree) → IsProject known.old decls → decls ≡ front ++ decl_tree decl.now ∷ rest
        → records ≡ length (filter_map rule.record_of front)
        → told.new.found ≡ with_first told.old.found (rule.inner_faults decls records (decl_tree decl.now))) }
    ensures known { OnOk result ((decls : List DeclTree) → IsProject known.old decls → IsProject known.new decls) }
{
    match decl {
        Decl::Import { .. } => Ok(()),
        Decl::Global(global) => judged_global(alloc, &known.outline, told, global),
        Decl::Record(record) => judged_record(alloc, known, told, records, record),
        Decl::Method(method) => judged_method(
            alloc,
            &mut known.outline,
            &mut known.scope,
            told,
            method,
        ),
    }
}
