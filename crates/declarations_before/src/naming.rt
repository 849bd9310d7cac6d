ghost use Rattle.std.specs.Prelude.{◌≡◌, ◌++◌, ◌∷◌, [], List, OnOk};
ghost use Rattle.slang_tree.specs.DeclTree.{DeclTree, decl_tree};
ghost use Rattle.type_rules.specs.Projects as rule;
ghost use Rattle.type_faults.specs.FirstFault.{with_first};
ghost use Rattle.declarations_before.specs.Before.{HasNames};

use crate::NoMemory;
use name_maps::NameMap;
use slang_tree::{Decl, Fault, Name};
use std::alloc::Global;
use type_faults::FirstFault;

/// A name is declared; tells where it was declared before.
fn declare_name(
    alloc: Global,
    names: &mut NameMap<()>,
    told: &mut FirstFault,
    name: &Name,
) -> Result<(), NoMemory>
    ensures told { OnOk result ((front : List DeclTree) → HasNames names.old front
        → told.new.found ≡ with_first told.old.found (rule.space_faults front (Some name.now))) }
    ensures names { OnOk result ((front : List DeclTree) (decl : DeclTree) → HasNames names.old front → rule.name_of decl ≡ Some name.now
        → HasNames names.new (front ++ decl ∷ [])) }
{
    let known = names.contains(name.text.as_str());
    told.tell_unless(
        !known,
        Fault {
            code: 7,
            place: name.place,
        },
    );
    names.add(alloc, name.text.as_str(), ())
}

/// The name of a declaration, if it has one, is declared; tells where it was declared before.
pub fn judged_name(
    alloc: Global,
    names: &mut NameMap<()>,
    told: &mut FirstFault,
    decl: &Decl,
) -> Result<(), NoMemory>
    ensures told { OnOk result ((front : List DeclTree) → HasNames names.old front
        → told.new.found ≡ with_first told.old.found (rule.space_faults front (rule.name_of (decl_tree decl.now)))) }
    ensures names { OnOk result ((front : List DeclTree) → HasNames names.old front → HasNames names.new (front ++ decl_tree decl.now ∷ [])) }
{
    match decl {
        Decl::Import { .. } => Ok(()),
        Decl::Global(global) => declare_name(alloc, names, told, &global.name),
        Decl::Record(record) => declare_name(alloc, names, told, &record.name),
        Decl::Method(method) => declare_name(alloc, names, told, &method.name),
    }
}
