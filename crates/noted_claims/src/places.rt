ghost use Rattle.std.specs.Prelude.{◌≡◌};
ghost use Rattle.slang_tree.specs.ExprTree.{expr_tree, place_of};

use slang_tree::{Expr, Place};

/// Where an expression stands.
#[tactic(auto, using(slang_tree::proofs::Lines::expr_lines))]
pub fn place_of(expr: &Expr) -> Place
    ensures { result ≡ place_of (expr_tree expr.now) }
{
    match expr {
        Expr::Number(place, _) => *place,
        Expr::True(place) => *place,
        Expr::False(place) => *place,
        Expr::Name(name) => name.place,
        Expr::Res(place, _) => *place,
        Expr::In(place, _) => *place,
        Expr::Old(place, _) => *place,
        Expr::Minus(place, _) => *place,
        Expr::Not(place, _) => *place,
        Expr::Binary(place, _, _, _) => *place,
        Expr::Apply(place, _, _) => *place,
        Expr::Update(place, _, _, _) => *place,
        Expr::Field(place, _, _) => *place,
        Expr::Sequence(place, _, _) => *place,
        Expr::Quantified(place, _, _, _, _, _) => *place,
        Expr::QuantifiedIndices(place, _, _, _, _) => *place,
    }
}
