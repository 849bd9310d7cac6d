ghost use Rattle.std.specs.Prelude.{◌≡◌, IfOk, List, OnOk};
ghost use Rattle.slang_tree.specs.DeclTree.{method_decl_tree};
ghost use Rattle.type_rules.specs.Meanings.{Declared, Scope};
ghost use Rattle.type_rules.specs.Projects as rule;
ghost use Rattle.type_faults.specs.FirstFault.{with_first};
ghost use Rattle.text_types.specs.Found.{bare, seen};
ghost use Rattle.name_scopes.specs.Fits.{Fits};
ghost use Rattle.signature_judging.specs.Knows.{Knows};
ghost use Rattle.statement_judging.specs.Keeps.{Keeps};
ghost use Rattle.header_judging.specs.Headers.{contract_faults, header_faults, types_faults};

use crate::NoMemory;
use crate::parameters::declare_params;
use claim_judging::claims;
use expression_forms::Context;
use name_scopes::NameScope;
use signature_judging::header_types;
use slang_tree::MethodDecl;
use std::alloc::Global;
use target_judging::{MayBeNamed, modifies};
use text_types::Found;
use type_faults::FirstFault;

/// Tells what is wrong with the types of parameters and of the result, and with the names of parameters, which come into scope.
fn judged_types(
    alloc: Global,
    outline: &mut NameScope,
    scope: &mut NameScope,
    told: &mut FirstFault,
    decl: &MethodDecl,
) -> Result<Found, NoMemory>
    ensures told { OnOk result ((names : List Declared) (at : Scope) → Knows outline.old.names names → Fits scope.old at
        → told.new.found ≡ with_first told.old.found (types_faults names at (method_decl_tree decl.now))) }
    ensures fits { OnOk result ((names : List Declared) (at : Scope) → Knows outline.old.names names → Fits scope.old at
        → Fits scope.new (rule.contract_scope names at (method_decl_tree decl.now))) }
    ensures found { IfOk result (λ found. (names : List Declared) → Knows outline.old.names names → seen found ≡ bare (rule.result_type names (method_decl_tree decl.now))) }
    ensures kept { OnOk result (Keeps scope.old scope.new) }
    ensures outline { OnOk result (outline.new ≡ outline.old) }
{
    let (types, found) = header_types(alloc, outline, told, decl)?;
    declare_params(alloc, scope, told, decl.params.as_slice(), types.as_slice())?;
    Ok(found)
}

/// Tells what is wrong with the contract of a method.
fn judged_contract(
    alloc: Global,
    scope: &mut NameScope,
    told: &mut FirstFault,
    decl: &MethodDecl,
    found: Found,
) -> Result<(), NoMemory>
    ensures told { OnOk result ((at : Scope) → Fits scope.old at
        → told.new.found ≡ with_first told.old.found (contract_faults at (seen found).type (method_decl_tree decl.now))) }
    ensures scope { OnOk result (scope.new ≡ scope.old) }
{
    claims(
        decl.requires_.as_slice(),
        alloc,
        scope,
        told,
        Context::Claim,
    )?;
    modifies(
        decl.modifies.as_slice(),
        alloc,
        scope,
        told,
        MayBeNamed::GlobalVars,
    )?;
    claims(
        decl.ensures_.as_slice(),
        alloc,
        scope,
        told,
        Context::Ensures(found.ty),
    )
}

/// Tells what is wrong with the header of a method. Its parameters come into scope. The answer is what is found at its result.
pub fn judged_header(
    alloc: Global,
    outline: &mut NameScope,
    scope: &mut NameScope,
    told: &mut FirstFault,
    decl: &MethodDecl,
) -> Result<Found, NoMemory>
    ensures told { OnOk result ((names : List Declared) (at : Scope) → Knows outline.old.names names → Fits scope.old at
        → told.new.found ≡ with_first told.old.found (header_faults names at (method_decl_tree decl.now))) }
    ensures fits { OnOk result ((names : List Declared) (at : Scope) → Knows outline.old.names names → Fits scope.old at
        → Fits scope.new (rule.contract_scope names at (method_decl_tree decl.now))) }
    ensures found { IfOk result (λ found. (names : List Declared) → Knows outline.old.names names → seen found ≡ bare (rule.result_type names (method_decl_tree decl.now))) }
    ensures kept { OnOk result (Keeps scope.old scope.new) }
    ensures outline { OnOk result (outline.new ≡ outline.old) }
{
    let found = judged_types(alloc, outline, scope, told, decl)?;
    judged_contract(alloc, scope, told, decl, found)?;
    Ok(found)
}
