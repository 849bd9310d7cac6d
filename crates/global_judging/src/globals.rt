ghost use Rattle.std.specs.Prelude.{◌≡◌, OnOk};
ghost use Rattle.slang_tree.specs.DeclTree.{global_decl_tree};
ghost use Rattle.type_rules.specs.Meanings.{Scope};
ghost use Rattle.type_rules.specs.Projects as rule;
ghost use Rattle.type_faults.specs.FirstFault.{with_first};
ghost use Rattle.name_scopes.specs.Fits.{Fits};

use crate::NoMemory;
use name_scopes::NameScope;
use slang_tree::GlobalDecl;
use std::alloc::Global;
use type_faults::FirstFault;
use value_judging::declared_constant;

/// Tells what is wrong with a global.
pub fn judged_global(
    alloc: Global,
    outline: &NameScope,
    told: &mut FirstFault,
    global: &GlobalDecl,
) -> Result<(), NoMemory>
    ensures { OnOk result ((at : Scope) → Fits outline.now at
        → told.new.found ≡ with_first told.old.found (rule.global_faults at (global_decl_tree global.now))) }
{
    declared_constant(&global.init, alloc, outline, told, &global.ty)?;
    Ok(())
}
