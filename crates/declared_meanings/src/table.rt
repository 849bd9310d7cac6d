ghost use Rattle.std.specs.Prelude.{◌≡◌, ◌+◌, ◌<◌, ◌^◌, IfOk, List, OnOk, [], map};
ghost use Rattle.std.specs.Option.{is_some};
ghost use Rattle.std.specs.Result.{OkIff};
ghost use Rattle.slang_tree.specs.DeclTree.{decl_tree};
ghost use Rattle.type_rules.specs.Meanings.{Scope};
ghost use Rattle.type_rules.specs.Projects as rule;
ghost use Rattle.name_scopes.specs.Fits.{Fits};
ghost use Rattle.project_files.specs.Files.{decl_of};
ghost use Rattle.signature_judging.specs.Knows.{Knows};
ghost use Rattle.declared_meanings.specs.Declares.{NumbersMethods};

use crate::NoMemory;
use crate::meaning::add_decl;
use name_maps::NameMap;
use name_scopes::{Meaning, NameScope};
use slang_tree::Decl;
use std::alloc::{AllocError, Global};

fn is_global(decl: &Decl) -> bool
    ensures { result ≡ is_some (rule.global_of (decl_tree decl.now)) }
{
    match decl {
        Decl::Global(_) => true,
        Decl::Import { .. } | Decl::Record(_) | Decl::Method(_) => false,
    }
}

fn is_record(decl: &Decl) -> bool
    ensures { result ≡ is_some (rule.record_of (decl_tree decl.now)) }
{
    match decl {
        Decl::Record(_) => true,
        Decl::Import { .. } | Decl::Global(_) | Decl::Method(_) => false,
    }
}

/// One more where this holds, if there is such a number.
fn counted(count: u32, holds: bool) -> Result<u32, NoMemory>
    ensures { OkIff result (count + rule.count_if holds < 2 ^ 32) (count + rule.count_if holds) }
{
    if holds {
        count.checked_add(1).ok_or(AllocError)
    } else {
        Ok(count)
    }
}

/// The names of declarations, with what they mean.
fn add_all(
    alloc: Global,
    outline: &mut NameScope,
    numbers: &NameMap<u32>,
    names: &mut NameMap<Meaning>,
    decls: &[&Decl],
) -> Result<(), NoMemory>
    ensures known { OnOk result ((at : Scope) → Fits outline.old at → NumbersMethods numbers.now (map decl_of decls.now) → names.old ≡ []
        → Knows names.new (rule.meanings_declared at (map decl_of decls.now) 0 0 (map decl_of decls.now))) }
    ensures scope { OnOk result (outline.new ≡ outline.old) }
{
    let mut globals = 0;
    let mut records = 0;
    for decl in decls {
        add_decl(alloc, outline, numbers, names, globals, records, decl)?;
        globals = counted(globals, is_global(decl))?;
        records = counted(records, is_record(decl))?;
    }
    Ok(())
}

/// What the names of declarations mean. The types and the constants of declarations are read in the outline.
pub fn meanings(
    alloc: Global,
    outline: &mut NameScope,
    numbers: &NameMap<u32>,
    decls: &[&Decl],
) -> Result<NameMap<Meaning>, NoMemory>
    ensures known { IfOk result (λ names. (at : Scope) → Fits outline.old at → NumbersMethods numbers.now (map decl_of decls.now)
        → Knows names (rule.meanings_declared at (map decl_of decls.now) 0 0 (map decl_of decls.now))) }
    ensures scope { OnOk result (outline.new ≡ outline.old) }
{
    let mut names = NameMap::new(alloc);
    add_all(alloc, outline, numbers, &mut names, decls)?;
    Ok(names)
}
