ghost use Rattle.std.specs.Prelude.{◌≡◌};
ghost use Rattle.slang_tree.specs.ExprTree.{expr_tree, place_of};
ghost use Rattle.slang_tree.specs.DeclTree.{const_tree, const_place};
ghost use Rattle.slang_tree.specs.StmtTree.{step_tree};
ghost use Rattle.height_rules.specs.Faults.{step_place};

use slang_tree::{Const, Expr, Place, Step};

/// Where an expression stands.
#[tactic(auto, using(slang_tree::proofs::Lines::expr_lines))]
pub fn place_of(expr: &Expr) -> Place
    ensures { result ≡ place_of (expr_tree expr.now) }
{
    match expr {
        Expr::Number(place, _) => *place,
        Expr::True(place) => *place,
        Expr::False(place) => *place,
        Expr::Name(name) => name.place,
        Expr::Res(place, _) => *place,
        Expr::In(place, _) => *place,
        Expr::Old(place, _) => *place,
        Expr::Minus(place, _) => *place,
        Expr::Not(place, _) => *place,
        Expr::Binary(place, _, _, _) => *place,
        Expr::Apply(place, _, _) => *place,
        Expr::Update(place, _, _, _) => *place,
        Expr::Field(place, _, _) => *place,
        Expr::Sequence(place, _, _) => *place,
        Expr::Quantified(place, _, _, _, _, _) => *place,
        Expr::QuantifiedIndices(place, _, _, _, _) => *place,
    }
}

/// Where a constant stands.
#[tactic(auto, using(slang_tree::proofs::Lines::const_lines))]
pub fn const_place(constant: &Const) -> Place
    ensures { result ≡ const_place (const_tree constant.now) }
{
    match constant {
        Const::Number(place, _) => *place,
        Const::Minus(place, _, _) => *place,
        Const::True(place) => *place,
        Const::False(place) => *place,
        Const::Sequence(place, _, _) => *place,
        Const::Record(name, _) => name.place,
    }
}

/// Where a step stands: at its label.
#[tactic(auto, using(slang_tree::proofs::Lines::step_lines))]
pub fn step_place(step: &Step) -> Place
    ensures { result ≡ step_place (step_tree step.now) }
{
    match step {
        Step::Line { label, .. } => label.place,
        Step::Sub { label, .. } => label.place,
        Step::Let { label, .. } => label.place,
    }
}
