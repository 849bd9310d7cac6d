ghost use Rattle.std.specs.Prelude.{OnOk};
ghost use Rattle.std.specs.Option.{option_map};
ghost use Rattle.slang_tree.specs.declared.place.Place.{Place};
ghost use Rattle.slang_tree.specs.ExprTree.{expr_tree};
ghost use Rattle.slang_tree.specs.TypeTree.{type_tree};
ghost use Rattle.type_rules.specs.Meanings.{Scope};
ghost use Rattle.name_scopes.specs.Fits.{Fits};
ghost use Rattle.statement_judging.specs.Keeps.{Keeps};
ghost use Rattle.statement_judging.specs.Judged.{IsStatement};
ghost use Rattle.statement_judging.specs.Declaration.{declaration};

use crate::NoMemory;
use claim_judging::new_name;
use name_scopes::NameScope;
use slang_tree::{Expr, Name, TypeName};
use std::alloc::Global;
use type_faults::FirstFault;
use value_judging::declared_by;

/// Tells what is wrong with a `val`, or with a `var`, which changes. Its name comes into scope.
pub fn declare(
    value: &Expr,
    alloc: Global,
    scope: &mut NameScope,
    told: &mut FirstFault,
    name: &Name,
    changes: bool,
    ty: &Option<TypeName>,
) -> Result<(), NoMemory>
    ensures judged { OnOk result ((at : Scope) → Fits scope.old at → (place : Place) → IsStatement scope.new told.old.found told.new.found at
        (declaration changes place name.now (option_map type_tree ty.now) (expr_tree value.now))) }
    ensures kept { OnOk result (Keeps scope.old scope.new) }
{
    new_name(scope, told, name);
    let ty = declared_by(value, alloc, scope, told, ty)?;
    scope.declare(alloc, name.text.as_str(), changes, ty)
}
