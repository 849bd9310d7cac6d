ghost use Rattle.std.specs.Prelude.{◌≡◌, IfOk, List, OnOk, map};
ghost use Rattle.slang_tree.specs.DeclTree.{DeclTree};
ghost use Rattle.height_rules.specs.Faults.{whole_faults};
ghost use Rattle.project_files.specs.Files.{decl_of, file_of, file_seen};
ghost use Rattle.project_scopes.specs.IsProject.{IsProject};
ghost use Rattle.project_judging.specs.Ordered.{decls_of, faults_in_order};

use crate::NoMemory;
use crate::files::add_faults;
use declarations_before::Before;
use project_files::{declarations, in_order};
use project_scopes::{ProjectScopes, scopes_of};
use slang_tree::{Decl, FileFault, NamedFile};
use sqlite_items::Items;
use std::alloc::Global;

/// The first faults of files in this order, in the scopes of their project.
fn faults_within(
    alloc: Global,
    known: &mut ProjectScopes,
    files: &[&NamedFile],
) -> Result<Items<FileFault>, NoMemory>
    ensures { IfOk result (λ faults. IsProject known.old (decls_of (map file_of files.now)) → faults ≡ faults_in_order (map file_of files.now)) }
{
    let mut before = Before::nothing(alloc);
    let mut faults = Items::new(alloc);
    add_faults(alloc, known, &mut before, &mut faults, files)?;
    Ok(faults)
}

/// The same, where the files have these declarations.
fn faults_among(
    alloc: Global,
    decls: &[&Decl],
    files: &[&NamedFile],
) -> Result<Items<FileFault>, NoMemory>
    ensures { IfOk result (λ faults. map decl_of decls.now ≡ decls_of (map file_of files.now) → faults ≡ faults_in_order (map file_of files.now)) }
{
    let mut known = scopes_of(alloc, decls)?;
    faults_within(alloc, &mut known, files)
}

/// The first faults of files in this order.
fn ordered_faults(alloc: Global, files: &[&NamedFile]) -> Result<Items<FileFault>, NoMemory>
    ensures { IfOk result (λ faults. faults ≡ faults_in_order (map file_of files.now)) }
{
    let decls = declarations(alloc, files)?;
    faults_among(alloc, decls.as_slice(), files)
}

/// The first fault of each file of a project that has one, in the order of the bytes of the files' names.
pub fn first_faults(alloc: Global, files: &[NamedFile]) -> Result<Items<FileFault>, NoMemory>
    ensures { IfOk result (λ faults. faults ≡ whole_faults (map file_seen files.now)) }
{
    let ordered = in_order(alloc, files)?;
    ordered_faults(alloc, ordered.as_slice())
}
