ghost use Rattle.std.specs.Prelude.{◌≡◌, ◌++◌, ◌∷◌, [], List, OnOk, map};
ghost use Rattle.slang_tree.specs.DeclTree.{DeclTree, decl_tree};
ghost use Rattle.type_rules.specs.Projects as rule;
ghost use Rattle.type_faults.specs.FirstFault.{with_first};
ghost use Rattle.project_scopes.specs.IsProject.{IsProject};
ghost use Rattle.declarations_before.specs.IsBefore.{IsBefore};

use crate::NoMemory;
use crate::inside::judged_inside;
use declarations_before::{Before, counted, judged_count, judged_name};
use project_scopes::ProjectScopes;
use slang_tree::Decl;
use std::alloc::Global;
use type_faults::FirstFault;

/// Tells what is wrong with a declaration, which then stands before those behind it.
fn judged_decl(
    alloc: Global,
    known: &mut ProjectScopes,
    told: &mut FirstFault,
    before: &mut Before,
    decl: &Decl,
) -> Result<(), NoMemory>
    ensures told { OnOk result ((decls front rest : List DeclTree) → IsProject known.old decls → IsBefore before.old front
        → decls ≡ front ++ decl_tree decl.now ∷ rest
        → told.new.found ≡ with_first told.old.found (rule.decl_faults decls front (decl_tree decl.now))) }
    ensures before { OnOk result ((front : List DeclTree) → IsBefore before.old front → IsBefore before.new (front ++ decl_tree decl.now ∷ [])) }
    ensures known { OnOk result ((decls : List DeclTree) → IsProject known.old decls → IsProject known.new decls) }
{
    let counts = before.counts;
    judged_name(alloc, &mut before.names, told, decl)?;
    judged_count(told, counts.methods, decl);
    judged_inside(alloc, known, told, counts.records, decl)?;
    before.counts = counted(counts, decl)?;
    Ok(())
}

/// Tells what is wrong with declarations, which then stand before those behind them.
pub fn judged_decls(
    alloc: Global,
    known: &mut ProjectScopes,
    told: &mut FirstFault,
    before: &mut Before,
    decls: &[Decl],
) -> Result<(), NoMemory>
    ensures told { OnOk result ((all front rest : List DeclTree) → IsProject known.old all → IsBefore before.old front
        → all ≡ front ++ map decl_tree decls.now ++ rest
        → told.new.found ≡ with_first told.old.found (rule.decls_faults all front (map decl_tree decls.now))) }
    ensures before { OnOk result ((front : List DeclTree) → IsBefore before.old front → IsBefore before.new (front ++ map decl_tree decls.now)) }
    ensures known { OnOk result ((all : List DeclTree) → IsProject known.old all → IsProject known.new all) }
{
    for decl in decls {
        judged_decl(alloc, known, told, before, decl)?;
    }
    Ok(())
}
