ghost use Rattle.std.specs.Prelude.{◌≡◌, IfOk, OnOk};
ghost use Rattle.std.specs.Option.{option_map};
ghost use Rattle.slang_tree.specs.DeclTree.{const_tree};
ghost use Rattle.slang_tree.specs.ExprTree.{expr_tree};
ghost use Rattle.slang_tree.specs.TypeTree.{type_tree};
ghost use Rattle.type_rules.specs.Meanings.{Scope};
ghost use Rattle.type_rules.specs.Constants.{judged_const};
ghost use Rattle.type_rules.specs.Expressions.{judged_right};
ghost use Rattle.name_scopes.specs.Fits.{Fits};
ghost use Rattle.value_judging.specs.IsDeclared.{IsDeclared};

use crate::NoMemory;
use crate::declaring::declared;
use constant_judging::judged_const;
use name_scopes::NameScope;
use right_sides::judged_right;
use slang_tree::{Const, Expr, TypeName};
use std::alloc::Global;
use text_types::TextType;
use type_faults::FirstFault;

/// The type of a `val` or a `var` of a method with this right side.
pub fn declared_by(
    value: &Expr,
    alloc: Global,
    scope: &mut NameScope,
    told: &mut FirstFault,
    ty: &Option<TypeName>,
) -> Result<Option<TextType>, NoMemory>
    ensures declared { IfOk result (λ type. (at : Scope) → Fits scope.old at
        → IsDeclared told.old.found told.new.found type at (option_map type_tree ty.now) (judged_right at (expr_tree value.now))) }
    ensures scope { OnOk result (scope.new ≡ scope.old) }
{
    let found = judged_right(value, alloc, scope, told)?;
    Ok(declared(scope, told, ty, found))
}

/// The type of a global with this constant.
pub fn declared_constant(
    constant: &Const,
    alloc: Global,
    scope: &NameScope,
    told: &mut FirstFault,
    ty: &Option<TypeName>,
) -> Result<Option<TextType>, NoMemory>
    ensures { IfOk result (λ type. (at : Scope) → Fits scope.now at
        → IsDeclared told.old.found told.new.found type at (option_map type_tree ty.now) (judged_const at (const_tree constant.now))) }
{
    let found = judged_const(constant, alloc, scope, told)?;
    Ok(declared(scope, told, ty, found))
}
