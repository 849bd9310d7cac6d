ghost use Rattle.std.specs.Prelude.{◌≡◌, ◌∷◌, ◌++◌, ℕ, [], IfOk, List, OnOk, Some};
ghost use Rattle.slang_tree.specs.DeclTree.{DeclTree, decl_tree, global_decl, global_decl_tree, method_decl, method_decl_tree};
ghost use Rattle.type_rules.specs.Meanings.{Declared, Scope, declared, method};
ghost use Rattle.type_rules.specs.Statements.{texts};
ghost use Rattle.type_rules.specs.Projects as rule;
ghost use Rattle.name_maps.specs.Names.{named};
ghost use Rattle.name_scopes.specs.Fits.{Fits};
ghost use Rattle.name_scopes.specs.Meanings.{meant};
ghost use Rattle.signature_judging.specs.Knows.{Knows};
ghost use Rattle.declared_meanings.specs.Declares.{IsNumbered};

use crate::NoMemory;
use crate::globals::global_meaning;
use name_maps::NameMap;
use name_scopes::{Meaning, Method, NameScope};
use signature_judging::{modified_texts, signature};
use slang_tree::{Decl, GlobalDecl, MethodDecl};
use std::alloc::Global;

/// One name more, with what it means.
fn add(
    alloc: Global,
    names: &mut NameMap<Meaning>,
    name: &str,
    meaning: Meaning,
) -> Result<(), NoMemory>
    ensures { OnOk result ((done : List Declared) → Knows names.old done → Knows names.new (done ++ declared name.now (meant meaning) ∷ [])) }
{
    names.add(alloc, name, meaning)
}

/// The name of a global.
fn add_global(
    alloc: Global,
    outline: &NameScope,
    names: &mut NameMap<Meaning>,
    number: u32,
    decl: &GlobalDecl,
) -> Result<(), NoMemory>
    ensures { OnOk result ((at : Scope) (decls : List DeclTree) (records : ℕ) (done : List Declared) → Fits outline.now at → Knows names.old done
        → Knows names.new (done ++ rule.meaning_declared at decls number records (global_decl (global_decl_tree decl.now)))) }
{
    let meaning = global_meaning(alloc, outline, number, decl)?;
    add(alloc, names, decl.name.text.as_str(), meaning)
}

/// The number of a method of this name.
fn number_of(numbers: &NameMap<u32>, name: &str) -> u32
    ensures { (number : ℕ) → named numbers.now name.now ≡ Some number → result ≡ number }
{
    match numbers.find(name) {
        None => 0,
        Some(number) => *number,
    }
}

/// What the name of a method means, by its number.
fn method_meaning(
    alloc: Global,
    outline: &mut NameScope,
    number: u32,
    decl: &MethodDecl,
) -> Result<Meaning, NoMemory>
    ensures meaning { IfOk result (λ meaning. (at : Scope) → Fits outline.old at → meant meaning
        ≡ method number (rule.signature_of at.names (method_decl_tree decl.now)) (texts (method_decl_tree decl.now).modifies)) }
    ensures scope { OnOk result (outline.new ≡ outline.old) }
{
    let modifies = modified_texts(alloc, decl.modifies.as_slice())?;
    let known = signature(alloc, outline, decl)?;
    Ok(Meaning::Method(Method {
        number,
        signature: known,
        modifies,
    }))
}

/// The name of a method.
fn add_method(
    alloc: Global,
    outline: &mut NameScope,
    numbers: &NameMap<u32>,
    names: &mut NameMap<Meaning>,
    decl: &MethodDecl,
) -> Result<(), NoMemory>
    ensures known { OnOk result ((at : Scope) (decls : List DeclTree) (globals : ℕ) (records : ℕ) (done : List Declared) → Fits outline.old at
        → IsNumbered numbers.now decls (method_decl (method_decl_tree decl.now)) → Knows names.old done
        → Knows names.new (done ++ rule.meaning_declared at decls globals records (method_decl (method_decl_tree decl.now)))) }
    ensures scope { OnOk result (outline.new ≡ outline.old) }
{
    let number = number_of(numbers, decl.name.text.as_str());
    let meaning = method_meaning(alloc, outline, number, decl)?;
    add(alloc, names, decl.name.text.as_str(), meaning)
}

/// The name of a declaration, behind so many globals and records.
pub fn add_decl(
    alloc: Global,
    outline: &mut NameScope,
    numbers: &NameMap<u32>,
    names: &mut NameMap<Meaning>,
    globals: u32,
    records: u32,
    decl: &Decl,
) -> Result<(), NoMemory>
    ensures known { OnOk result ((at : Scope) (decls : List DeclTree) (done : List Declared) → Fits outline.old at
        → IsNumbered numbers.now decls (decl_tree decl.now) → Knows names.old done
        → Knows names.new (done ++ rule.meaning_declared at decls globals records (decl_tree decl.now))) }
    ensures scope { OnOk result (outline.new ≡ outline.old) }
{
    match decl {
        Decl::Import { .. } => Ok(()),
        Decl::Global(global) => add_global(alloc, outline, names, globals, global),
        Decl::Record(record) => add(
            alloc,
            names,
            record.name.text.as_str(),
            Meaning::Record(records),
        ),
        Decl::Method(method) => add_method(alloc, outline, numbers, names, method),
    }
}
