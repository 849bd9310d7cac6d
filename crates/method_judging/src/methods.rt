ghost use Rattle.std.specs.Prelude.{◌≡◌, IfOk, List, OnOk};
ghost use Rattle.std.specs.Option.{is_some};
ghost use Rattle.slang_tree.specs.DeclTree.{method_decl_tree};
ghost use Rattle.type_rules.specs.Meanings.{Declared, Scope};
ghost use Rattle.type_rules.specs.Projects as rule;
ghost use Rattle.type_faults.specs.FirstFault.{with_first};
ghost use Rattle.name_scopes.specs.Fits.{Fits};
ghost use Rattle.signature_judging.specs.Knows.{Knows};

use crate::NoMemory;
use crate::bodies::judged_body;
use crate::scopes::leave_method;
use header_judging::judged_header;
use name_scopes::NameScope;
use signature_judging::signature;
use slang_tree::MethodDecl;
use std::alloc::Global;
use type_faults::FirstFault;

/// Whether what is written for the types of a method has no fault.
fn has_signature(
    alloc: Global,
    outline: &mut NameScope,
    decl: &MethodDecl,
) -> Result<bool, NoMemory>
    ensures signature { IfOk result (λ holds. (names : List Declared) → Knows outline.old.names names
        → holds ≡ is_some (rule.signature_of names (method_decl_tree decl.now))) }
    ensures outline { OnOk result (outline.new ≡ outline.old) }
{
    let known = signature(alloc, outline, decl)?;
    Ok(known.is_some())
}

/// Tells what is wrong with a method. The scope then fits what it fitted before.
pub fn judged_method(
    alloc: Global,
    outline: &mut NameScope,
    scope: &mut NameScope,
    told: &mut FirstFault,
    decl: &MethodDecl,
) -> Result<(), NoMemory>
    ensures told { OnOk result ((names : List Declared) (at : Scope) → Knows outline.old.names names → Fits scope.old at
        → told.new.found ≡ with_first told.old.found (rule.method_faults names at (method_decl_tree decl.now))) }
    ensures fits { OnOk result ((names : List Declared) (at : Scope) → Knows outline.old.names names → Fits scope.old at → Fits scope.new at) }
    ensures outline { OnOk result (outline.new ≡ outline.old) }
{
    let names = scope.names.len();
    let covered = scope.covered.len();
    let locals = scope.locals;
    let holds = has_signature(alloc, outline, decl)?;
    let found = judged_header(alloc, outline, scope, told, decl)?;
    judged_body(alloc, scope, told, decl, holds, found)?;
    leave_method(scope, names, covered, locals);
    Ok(())
}
