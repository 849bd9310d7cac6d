ghost use Rattle.std.specs.Prelude.{◌≡◌, ℕ, List, Option, Some, map, option_copied};
ghost use Rattle.std.specs.Option.{option_map};
ghost use Rattle.slang_tree.specs.ExprTree.{expr_tree};
ghost use Rattle.type_rules.specs.Meanings.{Scope, Signature};
ghost use Rattle.type_rules.specs.Expressions as rule;
ghost use Rattle.text_types.specs.Found.{IsJudged, seen};
ghost use Rattle.name_scopes.specs.Fits.{Fits};
ghost use Rattle.name_scopes.specs.Meanings.{meant};
ghost use Rattle.right_sides.specs.Called.{calls_method, is_method};

use expression_forms::call;
use name_scopes::{Meaning, NameScope};
use slang_tree::{Expr, Place};
use text_types::Found;
use type_faults::FirstFault;

/// What a name means that stands as the head of an application.
#[tactic(auto, using(slang_tree::proofs::Lines::expr_lines))]
fn head_meaning<'a>(scope: &'a NameScope, head: &Expr) -> Option<&'a Meaning>
    ensures { (at : Scope) → Fits scope.now at → rule.callee at (expr_tree head.now) ≡ rule.callee_meant (option_map meant (option_copied result)) }
{
    match head {
        Expr::Name(name) => scope.meaning(name.text.as_str()),
        _ => None,
    }
}

fn method_meant(meaning: &Meaning) -> bool
    ensures { result ≡ is_method (rule.callee_meant (Some (meant meaning.now))) }
{
    matches!(meaning, Meaning::Method(_))
}

/// Whether the head of an application names a method.
fn names_method(scope: &NameScope, head: &Expr) -> bool
    ensures { (at : Scope) → Fits scope.now at → result ≡ is_method (rule.callee at (expr_tree head.now)) }
{
    match head_meaning(scope, head) {
        None => false,
        Some(meaning) => method_meant(meaning),
    }
}

/// Whether an expression is a call of a method.
#[tactic(auto, using(slang_tree::proofs::Lines::expr_lines))]
pub fn calls_method(scope: &NameScope, expr: &Expr) -> bool
    ensures { (at : Scope) → Fits scope.now at → result ≡ calls_method at (expr_tree expr.now) }
{
    match expr {
        Expr::Apply(_, head, _) => names_method(scope, head.get()),
        _ => false,
    }
}

/// A call of the method that is named, where one may stand.
pub fn called(
    scope: &NameScope,
    told: &mut FirstFault,
    place: Place,
    head: &Expr,
    arguments: &[Found],
) -> Found
    ensures { (at : Scope) (signature : Option Signature) (modifies : List (List ℕ)) → Fits scope.now at
        → rule.callee at (expr_tree head.now) ≡ rule.a_method signature modifies
        → IsJudged told.old.found told.new.found result (rule.judged_call at place signature modifies (map seen arguments.now)) }
{
    match head_meaning(scope, head) {
        Some(Meaning::Method(method)) => call(scope, told, place, method, arguments),
        _ => Found::untyped(place),
    }
}
