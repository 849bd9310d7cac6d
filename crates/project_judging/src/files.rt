ghost use Rattle.std.specs.Prelude.{◌≡◌, ◌++◌, IfOk, List, OnOk, map};
ghost use Rattle.slang_tree.specs.DeclTree.{DeclTree, file_tree};
ghost use Rattle.type_rules.specs.Faults.{first_fault};
ghost use Rattle.project_files.specs.Files.{file_of};
ghost use Rattle.project_scopes.specs.IsProject.{IsProject};
ghost use Rattle.declarations_before.specs.IsBefore.{IsBefore};
ghost use Rattle.project_judging.specs.Ordered.{decls_of, fault_in, faults_behind, file_faults};

use crate::NoMemory;
use declaration_judging::judged_decls;
use declarations_before::Before;
use height_judging::file_heights;
use project_scopes::ProjectScopes;
use slang_tree::{FileFault, NamedFile, Text};
use sqlite_items::Items;
use std::alloc::Global;
use type_faults::FirstFault;

/// What is wrong with a file. Its declarations then stand before those behind it.
fn judged_file(
    alloc: Global,
    known: &mut ProjectScopes,
    before: &mut Before,
    file: &NamedFile,
) -> Result<FirstFault, NoMemory>
    ensures told { IfOk result (λ told. (all front rest : List DeclTree) → IsProject known.old all → IsBefore before.old front
        → all ≡ front ++ file_tree file.now.tree ++ rest → told.found ≡ first_fault (file_faults all front (file_tree file.now.tree))) }
    ensures before { OnOk result ((front : List DeclTree) → IsBefore before.old front → IsBefore before.new (front ++ file_tree file.now.tree)) }
    ensures known { OnOk result ((all : List DeclTree) → IsProject known.old all → IsProject known.new all) }
{
    let mut told = FirstFault::none();
    judged_decls(alloc, known, &mut told, before, file.tree.items.as_slice())?;
    file_heights(&mut told, file.tree.items.as_slice());
    Ok(told)
}

/// The fault of a file, if it has one, behind those of others.
fn add_fault(
    alloc: Global,
    faults: &mut Items<FileFault>,
    name: &Text,
    told: FirstFault,
) -> Result<(), NoMemory>
    ensures { OnOk result (faults.new ≡ faults.old ++ fault_in name.now told.found) }
{
    match told.found {
        None => Ok(()),
        Some(fault) => {
            let file = name.copy(alloc)?;
            faults.push(FileFault { file, fault })
        }
    }
}

/// The first fault of each file that has one, behind those of others.
pub fn add_faults(
    alloc: Global,
    known: &mut ProjectScopes,
    before: &mut Before,
    faults: &mut Items<FileFault>,
    files: &[&NamedFile],
) -> Result<(), NoMemory>
    ensures { OnOk result ((all front rest : List DeclTree) → IsProject known.old all → IsBefore before.old front
        → all ≡ front ++ decls_of (map file_of files.now) ++ rest → faults.new ≡ faults.old ++ faults_behind all front (map file_of files.now)) }
{
    for file in files {
        let told = judged_file(alloc, known, before, file)?;
        add_fault(alloc, faults, &file.name, told)?;
    }
    Ok(())
}
