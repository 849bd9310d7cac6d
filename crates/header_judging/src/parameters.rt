ghost use Rattle.std.specs.Prelude.{◌≡◌, OnOk, false, length, map};
ghost use Rattle.slang_tree.specs.DeclTree.{param_tree};
ghost use Rattle.type_rules.specs.Meanings.{Scope, with_local};
ghost use Rattle.type_rules.specs.Steps.{new_name_faults};
ghost use Rattle.type_rules.specs.Projects as rule;
ghost use Rattle.type_faults.specs.FirstFault.{with_first};
ghost use Rattle.text_types.specs.Found.{seen};
ghost use Rattle.name_scopes.specs.Fits.{Fits};
ghost use Rattle.statement_judging.specs.Keeps.{Keeps};
ghost use Rattle.header_judging.specs.Headers.{new_params_faults};

use crate::NoMemory;
use claim_judging::new_name;
use name_scopes::NameScope;
use slang_tree::Param;
use std::alloc::Global;
use text_types::Found;
use type_faults::FirstFault;

/// A parameter of this type comes into scope; tells where its name has a meaning before.
fn declare_param(
    alloc: Global,
    scope: &mut NameScope,
    told: &mut FirstFault,
    param: &Param,
    found: Found,
) -> Result<(), NoMemory>
    ensures told { OnOk result ((at : Scope) → Fits scope.old at → told.new.found ≡ with_first told.old.found (new_name_faults at (param_tree param.now).written)) }
    ensures fits { OnOk result ((at : Scope) → Fits scope.old at → Fits scope.new (with_local at (param_tree param.now).written.text false (seen found).type)) }
    ensures kept { OnOk result (Keeps scope.old scope.new) }
{
    new_name(scope, told, &param.name);
    scope.declare(alloc, param.name.text.as_str(), false, found.ty)
}

/// Parameters of these types, which are as many, come into scope; tells where the name of one has a meaning before.
fn declare_each(
    alloc: Global,
    scope: &mut NameScope,
    told: &mut FirstFault,
    params: &[Param],
    types: &[Found],
) -> Result<(), NoMemory>
    requires { length params.now ≡ length types.now }
    ensures told { OnOk result ((at : Scope) → Fits scope.old at
        → told.new.found ≡ with_first told.old.found (new_params_faults at (map param_tree params.now) (map seen types.now))) }
    ensures fits { OnOk result ((at : Scope) → Fits scope.old at → Fits scope.new (rule.with_params at (map param_tree params.now) (map seen types.now))) }
    ensures kept { OnOk result (Keeps scope.old scope.new) }
{
    for i in 0..params.len() {
        declare_param(alloc, scope, told, &params[i], types[i])?;
    }
    Ok(())
}

/// The same, where they may not be as many.
pub fn declare_params(
    alloc: Global,
    scope: &mut NameScope,
    told: &mut FirstFault,
    params: &[Param],
    types: &[Found],
) -> Result<(), NoMemory>
    ensures told { OnOk result ((at : Scope) → Fits scope.old at → length params.now ≡ length types.now
        → told.new.found ≡ with_first told.old.found (new_params_faults at (map param_tree params.now) (map seen types.now))) }
    ensures fits { OnOk result ((at : Scope) → Fits scope.old at → length params.now ≡ length types.now
        → Fits scope.new (rule.with_params at (map param_tree params.now) (map seen types.now))) }
    ensures kept { OnOk result (Keeps scope.old scope.new) }
{
    if params.len() == types.len() {
        declare_each(alloc, scope, told, params, types)
    } else {
        Ok(())
    }
}
