ghost use Rattle.std.specs.Prelude.{◌≡◌, ◌++◌, ◌∷◌, [], ℕ, IfOk, List, OnOk};
ghost use Rattle.std.specs.Set.{is_member};
ghost use Rattle.std.specs.Str.{bytes_eq};
ghost use Rattle.name_maps.specs.Names.{is_named};
ghost use Rattle.name_scopes.specs.declared.scope.NameScope.{NameScope};
ghost use Rattle.name_scopes.specs.Fits.{Fits};
ghost use Rattle.type_rules.specs.Meanings.{Scope};
ghost use Rattle.type_rules.specs.Statements.{texts};
ghost use Rattle.method_judging.specs.Bodies.{after_method, within_body};

use crate::NoMemory;
use name_maps::NameMap;
use name_scopes::NameScope;
use slang_tree::Name;
use std::alloc::Global;
use std::mem::replace;

/// The names of the variables that may be changed in the body of a method.
fn covered_by(alloc: Global, modifies: &[Name]) -> Result<NameMap<()>, NoMemory>
    ensures { IfOk result (λ covered. (text : List ℕ) → is_named covered text ≡ is_member bytes_eq (texts modifies.now) text) }
{
    let mut covered = NameMap::new(alloc);
    for name in modifies {
        covered.add(alloc, name.text.as_str(), ())?;
    }
    Ok(covered)
}

/// The body of a method begins, which changes only these of what stands outside.
pub fn enter_body(alloc: Global, scope: &mut NameScope, modifies: &[Name]) -> Result<(), NoMemory>
    ensures fits { OnOk result ((at : Scope) → Fits scope.old at → Fits scope.new (within_body at modifies.now)) }
    ensures names { OnOk result (scope.new.names ≡ scope.old.names) }
    ensures outside { OnOk result (scope.new.outside ≡ scope.old.outside ++ scope.old.covered ∷ []) }
{
    let inner = covered_by(alloc, modifies)?;
    let outer = replace(&mut scope.covered, inner);
    scope.outside.push(outer)
}

/// A method ends, before which there were so many names, names of variables that may be changed, and locals.
pub fn leave_method(scope: &mut NameScope, names: usize, covered: usize, locals: u32)
    ensures { (contract : NameScope) → scope.old.outside ≡ contract.outside ++ contract.covered ∷ []
        → scope.new ≡ after_method names covered locals contract scope.old }
{
    scope.names.leave(names);
    scope.locals = locals;
    match scope.outside.pop() {
        None => {}
        Some(outer) => {
            scope.covered = outer;
            scope.covered.leave(covered);
        }
    }
}
