ghost use Rattle.std.specs.Prelude.{Some};
ghost use Rattle.slang_tree.specs.ExprTree.{expr_tree};
ghost use Rattle.type_rules.specs.Meanings.{Scope, meaning_of};
ghost use Rattle.name_scopes.specs.Fits.{Fits};
ghost use Rattle.name_scopes.specs.Meanings.{meant};
ghost use Rattle.typed_parts.specs.Heads.{IsHead, head_meaning};

use name_scopes::{Meaning, NameScope};
use slang_tree::Expr;

/// What the head of an application names: a record or a method, by its number, or else a value.
#[derive(Clone, Copy, Debug)]
pub enum Head {
    Value,
    Record(u32),
    Method(u32),
}

/// What a name of this meaning is as the head of an application.
fn head_meant(meaning: &Meaning) -> Head
    ensures { IsHead result (Some (meant meaning.now)) }
{
    match meaning {
        Meaning::Record(number) => Head::Record(*number),
        Meaning::Method(method) => Head::Method(method.number),
        Meaning::Local { .. } | Meaning::Global { .. } | Meaning::Bound(_) | Meaning::Block(_) =>
            Head::Value,
    }
}

/// What a name is as the head of an application.
pub fn head_named(scope: &NameScope, name: &str) -> Head
    ensures { (at : Scope) → Fits scope.now at → IsHead result (meaning_of at name.now) }
{
    match scope.meaning(name) {
        None => Head::Value,
        Some(meaning) => head_meant(meaning),
    }
}

/// What an expression is as the head of an application.
#[tactic(auto, using(slang_tree::proofs::Lines::expr_lines))]
pub fn head_of(scope: &NameScope, head: &Expr) -> Head
    ensures { (at : Scope) → Fits scope.now at → IsHead result (head_meaning at (expr_tree head.now)) }
{
    match head {
        Expr::Name(name) => head_named(scope, name.text.as_str()),
        _ => Head::Value,
    }
}
