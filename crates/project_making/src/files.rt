ghost use Rattle.std.specs.Prelude.{◌≡◌, IfOk, OnOk, List, map};
ghost use Rattle.slang_tree.specs.DeclTree.{DeclTree, decl_tree};
ghost use Rattle.type_rules.specs.Projects as rule;
ghost use Rattle.typed_names.specs.Fields.{HasFields};
ghost use Rattle.project_files.specs.Files.{file_of};
ghost use Rattle.project_scopes.specs.IsProject.{IsProject};
ghost use Rattle.project_making.specs.Members.{AreAdded, AreFilesAdded};

use crate::NoMemory;
use crate::members::{Members, add_decl};
use lk_programs::RecordTy;
use project_scopes::ProjectScopes;
use slang_tree::{Decl, NamedFile};
use std::alloc::{AllocError, Global};
use typed_names::Nodes;

/// What declarations stand for, behind other members.
fn add_decls(
    alloc: Global,
    known: &mut ProjectScopes,
    nodes: &mut Nodes,
    records: &[RecordTy],
    globals: u32,
    members: &mut Members,
    decls: &[Decl],
) -> Result<(), NoMemory>
    ensures added { OnOk result ((all : List DeclTree) → IsProject known.old all → HasFields records.now (rule.scope_of all)
        → AreAdded globals nodes.old nodes.new members.old members.new all (map decl_tree decls.now)) }
    ensures known { OnOk result ((all : List DeclTree) → IsProject known.old all → HasFields records.now (rule.scope_of all)
        → IsProject known.new all) }
{
    for decl in decls {
        add_decl(alloc, known, nodes, records, globals, members, decl)?;
    }
    Ok(())
}

/// A number, if it fits.
fn fitting(number: usize) -> Result<u32, NoMemory>
    ensures { IfOk result (λ n. n ≡ number) }
{
    match u32::try_from(number) {
        Ok(number) => Ok(number),
        Err(_) => Err(AllocError),
    }
}

/// What the declarations of files stand for, behind other members. The nodes stand in the files by their numbers.
pub fn add_files(
    alloc: Global,
    known: &mut ProjectScopes,
    nodes: &mut Nodes,
    records: &[RecordTy],
    globals: u32,
    members: &mut Members,
    files: &[&NamedFile],
) -> Result<(), NoMemory>
    ensures { OnOk result ((all : List DeclTree) → IsProject known.old all → HasFields records.now (rule.scope_of all)
        → AreFilesAdded globals nodes.old.places nodes.new.places members.old members.new all (map file_of files.now)) }
{
    for (number, file) in files.iter().enumerate() {
        let at = fitting(number)?;
        nodes.file = at;
        let decls = file.tree.items.as_slice();
        add_decls(alloc, known, nodes, records, globals, members, decls)?;
    }
    Ok(())
}
