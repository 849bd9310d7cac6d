ghost use Rattle.std.specs.Prelude.{◌≡◌, ◌+◌, IfOk, filter_map, length, map};
ghost use Rattle.slang_tree.specs.DeclTree.{decl_tree};
ghost use Rattle.type_rules.specs.Projects as rule;
ghost use Rattle.project_files.specs.Files.{decl_of, file_of};
ghost use Rattle.project_making.specs.Members.{file_name, globals_in};

use crate::NoMemory;
use slang_tree::{Decl, NamedFile, Text};
use sqlite_items::Items;
use std::alloc::{AllocError, Global};

/// How many globals a declaration is.
fn global_in(decl: &Decl) -> u32
    ensures { result ≡ globals_in (decl_tree decl.now) }
{
    match decl {
        Decl::Global(_) => 1,
        Decl::Import { .. } => 0,
        Decl::Record(_) => 0,
        Decl::Method(_) => 0,
    }
}

/// A sum, if it fits.
fn sum(first: u32, second: u32) -> Result<u32, NoMemory>
    ensures { IfOk result (λ n. n ≡ first + second) }
{
    match u32::try_from(first as u64 + second as u64) {
        Ok(number) => Ok(number),
        Err(_) => Err(AllocError),
    }
}

/// How many globals there are among declarations.
pub fn global_count(decls: &[&Decl]) -> Result<u32, NoMemory>
    ensures { IfOk result (λ n. n ≡ length (filter_map rule.global_of (map decl_of decls.now))) }
{
    let mut count: u32 = 0;
    for decl in decls {
        let next = sum(count, global_in(decl))?;
        count = next;
    }
    Ok(count)
}

/// The names of files.
pub fn file_names(alloc: Global, files: &[&NamedFile]) -> Result<Items<Text>, NoMemory>
    ensures { IfOk result (λ names. names ≡ map file_name (map file_of files.now)) }
{
    let mut names = Items::new(alloc);
    for file in files {
        names.push(file.name.copy(alloc)?)?;
    }
    Ok(names)
}
