ghost use Rattle.std.specs.Prelude.{◌≡◌, ◌++◌, ◌∷◌, [], OnOk, length, take};
ghost use Rattle.slang_tree.specs.DeclTree.{method_decl_tree};
ghost use Rattle.type_rules.specs.Meanings.{Scope};
ghost use Rattle.type_faults.specs.FirstFault.{with_first};
ghost use Rattle.text_types.specs.Found.{seen};
ghost use Rattle.name_scopes.specs.Fits.{Fits};
ghost use Rattle.method_judging.specs.Bodies.{behind_body, body_faults};

use crate::NoMemory;
use crate::scopes::enter_body;
use name_scopes::NameScope;
use return_judging::judged_return;
use slang_tree::MethodDecl;
use statement_judging::judged_stmts;
use std::alloc::Global;
use text_types::Found;
use type_faults::FirstFault;

/// Tells what is wrong with the body of a method and with its return, where this is found at its result.
pub fn judged_body(
    alloc: Global,
    scope: &mut NameScope,
    told: &mut FirstFault,
    decl: &MethodDecl,
    has_signature: bool,
    found: Found,
) -> Result<(), NoMemory>
    ensures told { OnOk result ((at : Scope) → Fits scope.old at
        → told.new.found ≡ with_first told.old.found (body_faults at has_signature (seen found).type (method_decl_tree decl.now))) }
    ensures fits { OnOk result ((at : Scope) → Fits scope.old at → Fits scope.new (behind_body at (method_decl_tree decl.now))) }
    ensures names { OnOk result (take (length scope.old.names) scope.new.names ≡ scope.old.names) }
    ensures outside { OnOk result (scope.new.outside ≡ scope.old.outside ++ scope.old.covered ∷ []) }
{
    enter_body(alloc, scope, decl.modifies.as_slice())?;
    judged_stmts(decl.body.as_slice(), alloc, scope, told)?;
    judged_return(
        alloc,
        scope,
        told,
        &decl.name,
        has_signature,
        found.ty,
        &decl.returned,
    )
}
