ghost use Rattle.std.specs.Prelude.{◌≡◌, ◌++◌, ◌∷◌, []};
ghost use Rattle.name_scopes.specs.declared.scope.NameScope.{NameScope};
ghost use Rattle.statement_judging.specs.Keeps.{after_loop};

use name_scopes::NameScope;

/// A loop ends, before which there were so many names. What could be changed before it can be changed again.
pub fn leave_loop(scope: &mut NameScope, names: usize)
    ensures { (before : NameScope) → scope.old.outside ≡ before.outside ++ before.covered ∷ [] → scope.new ≡ after_loop names before scope.old }
{
    scope.names.leave(names);
    match scope.outside.pop() {
        None => {}
        Some(covered) => scope.covered = covered,
    }
}
