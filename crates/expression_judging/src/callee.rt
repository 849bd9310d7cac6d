ghost use Rattle.std.specs.Prelude.{◌≡◌, ℕ, List, Option, Some, map, option_copied};
ghost use Rattle.std.specs.Option.{option_map};
ghost use Rattle.slang_tree.specs.ExprTree.{expr_tree};
ghost use Rattle.type_rules.specs.Meanings.{Scope, Signature};
ghost use Rattle.type_rules.specs.Expressions as rule;
ghost use Rattle.text_types.specs.Found.{IsJudged, seen};
ghost use Rattle.name_scopes.specs.Fits.{Fits};
ghost use Rattle.name_scopes.specs.Meanings.{meant};
ghost use Rattle.expression_forms.specs.Context.{context_seen};
ghost use Rattle.expression_judging.specs.Callee.{IsKind};

use expression_forms::{Context, nested_call};
use name_scopes::{Meaning, NameScope};
use slang_tree::{Expr, Place};
use text_types::Found;
use type_faults::FirstFault;

/// What the head of an application names: a record, a method, or else a value.
#[derive(Clone, Copy, Debug)]
pub enum Kind {
    Value,
    Record(u32),
    Method,
}

/// What a name means that stands as the head of an application.
#[tactic(auto, using(slang_tree::proofs::Lines::expr_lines))]
fn head_meaning<'a>(scope: &'a NameScope, head: &Expr) -> Option<&'a Meaning>
    ensures { (at : Scope) → Fits scope.now at → rule.callee at (expr_tree head.now) ≡ rule.callee_meant (option_map meant (option_copied result)) }
{
    match head {
        Expr::Name(name) => scope.meaning(name.text.as_str()),
        _ => None,
    }
}

/// What kind of thing a name means that stands as the head of an application.
fn kind_meant(meaning: &Meaning) -> Kind
    ensures { IsKind result (rule.callee_meant (Some (meant meaning.now))) }
{
    match meaning {
        Meaning::Record(number) => Kind::Record(*number),
        Meaning::Method(_) => Kind::Method,
        _ => Kind::Value,
    }
}

/// What kind of thing the head of an application names.
pub fn kind_of(scope: &NameScope, head: &Expr) -> Kind
    ensures { (at : Scope) → Fits scope.now at → IsKind result (rule.callee at (expr_tree head.now)) }
{
    match head_meaning(scope, head) {
        None => Kind::Value,
        Some(meaning) => kind_meant(meaning),
    }
}

/// A call of the method that is named, where none may stand.
pub fn nested(
    scope: &NameScope,
    told: &mut FirstFault,
    context: Context,
    place: Place,
    head: &Expr,
    arguments: &[Found],
) -> Found
    ensures { (at : Scope) (signature : Option Signature) (modifies : List (List ℕ)) → Fits scope.now at
        → rule.callee at (expr_tree head.now) ≡ rule.a_method signature modifies
        → IsJudged told.old.found told.new.found result (rule.judged_nested_call at (context_seen context) place signature modifies (map seen arguments.now)) }
{
    match head_meaning(scope, head) {
        Some(Meaning::Method(method)) => nested_call(
            scope, told, context, place, method, arguments,
        ),
        _ => Found::untyped(place),
    }
}
