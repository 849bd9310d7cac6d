ghost use Rattle.std.specs.Prelude.{◌≡◌, ◌<◌, ◌^◌, ◌+◌, ℕ, IfOk, List, Some, [], map, option_copied};
ghost use Rattle.std.specs.Option.{option_map};
ghost use Rattle.slang_tree.specs.DeclTree.{decl_tree, method_decl_tree};
ghost use Rattle.std.specs.Result.{OkIff};
ghost use Rattle.std.specs.List.{Contains};
ghost use Rattle.name_maps.specs.Names.{named};
ghost use Rattle.type_rules.specs.Projects as rule;
ghost use Rattle.project_files.specs.Files.{decl_of, method_names, numbers_with};

use crate::NoMemory;
use name_maps::NameMap;
use slang_tree::{Decl, MethodDecl};
use std::alloc::{AllocError, Global};

/// One more, where there is such a number.
fn next(count: u32) -> Result<u32, NoMemory>
    ensures { OkIff result (count + 1 < 2 ^ 32) (count + 1) }
{
    count.checked_add(1).ok_or(AllocError)
}

/// A declaration, if it is a method.
pub fn method_of(decl: &Decl) -> Option<&MethodDecl>
    ensures { option_map method_decl_tree (option_copied result) ≡ rule.method_of (decl_tree decl.now) }
{
    match decl {
        Decl::Method(method) => Some(method),
        _ => None,
    }
}

/// The names of the methods among declarations.
fn method_names<'a>(alloc: Global, decls: &[&'a Decl]) -> Result<Vec<&'a str>, NoMemory>
    ensures { IfOk result (λ names. map (λ name. name.now) names.items ≡ method_names (map decl_of decls.now)) }
{
    let mut names: Vec<&str> = Vec::new(alloc);
    for decl in decls {
        match method_of(decl) {
            None => {}
            Some(method) => names.push(method.name.text.as_str())?,
        }
    }
    Ok(names)
}

/// The number of each of some names that are in order: how many names come before it.
fn numbered(alloc: Global, names: &[&str]) -> Result<NameMap<u32>, NoMemory>
    ensures { IfOk result (λ numbers. numbers ≡ numbers_with [] 0 (map (λ name. name.now) names.now)) }
{
    let mut numbers = NameMap::new(alloc);
    let mut count = 0;
    for name in names {
        numbers.add(alloc, name, count)?;
        count = next(count)?;
    }
    Ok(numbers)
}

/// The number of each method by its name: how many methods' names come before it.
pub fn method_numbers(alloc: Global, decls: &[&Decl]) -> Result<NameMap<u32>, NoMemory>
    ensures { IfOk result (λ numbers. (text : List ℕ) → Contains (method_names (map decl_of decls.now)) text
        → named numbers text ≡ Some (rule.method_number (map decl_of decls.now) text)) }
{
    let mut names = method_names(alloc, decls)?;
    names.sort()?;
    let numbers = numbered(alloc, names.as_slice())?;
    Ok(numbers)
}
