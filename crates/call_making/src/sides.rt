ghost use Rattle.std.specs.Prelude.{◌≡◌};
ghost use Rattle.std.specs.Option.{option_map};
ghost use Rattle.slang_tree.specs.ExprTree.{expr_tree};
ghost use Rattle.type_rules.specs.Meanings.{Scope};
ghost use Rattle.name_scopes.specs.Fits.{Fits};
ghost use Rattle.call_making.specs.Sides.{IsSide, applied_in, applied_seen, name_in, name_seen};

use name_scopes::NameScope;
use slang_tree::{Expr, Name};
use typed_parts::{Head, head_named};

/// The head and the arguments of an application.
#[tactic(auto, using(slang_tree::proofs::Lines::expr_lines))]
fn applied(value: &Expr) -> Option<(&Expr, &[Expr])>
    ensures { option_map applied_seen result ≡ applied_in (expr_tree value.now) }
{
    match value {
        Expr::Apply(_, head, arguments) => Some((head.get(), arguments.as_slice())),
        _ => None,
    }
}

/// The name that an expression is.
#[tactic(auto, using(slang_tree::proofs::Lines::expr_lines))]
fn named(head: &Expr) -> Option<&Name>
    ensures { option_map name_seen result ≡ name_in (expr_tree head.now) }
{
    match head {
        Expr::Name(name) => Some(name),
        _ => None,
    }
}

/// The name and the arguments of a right side that is a call of a method.
pub fn call_in<'a>(scope: &NameScope, value: &'a Expr) -> Option<(&'a Name, &'a [Expr])>
    ensures { (at : Scope) → Fits scope.now at → IsSide at (expr_tree value.now) result }
{
    match applied(value) {
        None => None,
        Some((head, arguments)) => match named(head) {
            None => None,
            Some(name) => match head_named(scope, name.text.as_str()) {
                Head::Method(_) => Some((name, arguments)),
                Head::Value => None,
                Head::Record(_) => None,
            },
        },
    }
}
