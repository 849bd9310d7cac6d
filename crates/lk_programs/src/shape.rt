ghost use Rattle.lk_programs.specs.Shape.{IsShapeOf};

use crate::expression::{Expr, NodeNo};
use lk_claims::Ty;
use slang_tree::Operator;
use slang_values::Unary;

/// An expression by its operator and its parts.
#[derive(Clone, Copy)]
pub enum ExprShape<'a> {
    Literal(NodeNo, i128),
    Truth(NodeNo, bool),
    Variable(NodeNo, u32),
    Unary(NodeNo, Unary, &'a Expr),
    Binary(NodeNo, Operator, &'a Expr, &'a Expr),
    /// The sequence and the place.
    Read(NodeNo, &'a Expr, &'a Expr),
    /// The sequence, the place and the new element.
    Update(NodeNo, &'a Expr, &'a Expr, &'a Expr),
    Sequence(NodeNo, &'a Ty, &'a [Expr]),
    Record(NodeNo, u32, &'a [Expr]),
}

impl Expr {
    #[tactic(auto, using(crate::proofs::Exprs::leaf_lines))]
    pub fn shape(&self) -> ExprShape<'_>
        ensures { IsShapeOf self.now result }
    {
        match self {
            Expr::Lit(node, z) => ExprShape::Literal(*node, *z),
            Expr::True(node) => ExprShape::Truth(*node, true),
            Expr::False(node) => ExprShape::Truth(*node, false),
            Expr::Var(node, n) => ExprShape::Variable(*node, *n),
            Expr::Neg(node, a) => ExprShape::Unary(*node, Unary::Neg, a.get()),
            Expr::Not(node, a) => ExprShape::Unary(*node, Unary::Not, a.get()),
            Expr::LooseImply(node, a, b) => ExprShape::Binary(
                *node,
                Operator::LooseImply,
                a.get(),
                b.get(),
            ),
            Expr::LooseCondImply(node, a, b) => ExprShape::Binary(
                *node,
                Operator::LooseCondImply,
                a.get(),
                b.get(),
            ),
            Expr::Or(node, a, b) => ExprShape::Binary(*node, Operator::Or, a.get(), b.get()),
            Expr::CondOr(node, a, b) => ExprShape::Binary(
                *node,
                Operator::CondOr,
                a.get(),
                b.get(),
            ),
            Expr::And(node, a, b) => ExprShape::Binary(*node, Operator::And, a.get(), b.get()),
            Expr::CondAnd(node, a, b) => ExprShape::Binary(
                *node,
                Operator::CondAnd,
                a.get(),
                b.get(),
            ),
            Expr::Eq(node, a, b) => ExprShape::Binary(*node, Operator::Eq, a.get(), b.get()),
            Expr::Ne(node, a, b) => ExprShape::Binary(*node, Operator::Ne, a.get(), b.get()),
            Expr::Lt(node, a, b) => ExprShape::Binary(*node, Operator::Lt, a.get(), b.get()),
            Expr::Le(node, a, b) => ExprShape::Binary(*node, Operator::Le, a.get(), b.get()),
            Expr::Gt(node, a, b) => ExprShape::Binary(*node, Operator::Gt, a.get(), b.get()),
            Expr::Ge(node, a, b) => ExprShape::Binary(*node, Operator::Ge, a.get(), b.get()),
            Expr::Append(node, a, b) => ExprShape::Binary(
                *node,
                Operator::Append,
                a.get(),
                b.get(),
            ),
            Expr::Imply(node, a, b) => ExprShape::Binary(*node, Operator::Imply, a.get(), b.get()),
            Expr::CondImply(node, a, b) => ExprShape::Binary(
                *node,
                Operator::CondImply,
                a.get(),
                b.get(),
            ),
            Expr::Add(node, a, b) => ExprShape::Binary(*node, Operator::Add, a.get(), b.get()),
            Expr::Sub(node, a, b) => ExprShape::Binary(*node, Operator::Sub, a.get(), b.get()),
            Expr::Mul(node, a, b) => ExprShape::Binary(*node, Operator::Mul, a.get(), b.get()),
            Expr::Div(node, a, b) => ExprShape::Binary(*node, Operator::Div, a.get(), b.get()),
            Expr::Rem(node, a, b) => ExprShape::Binary(*node, Operator::Rem, a.get(), b.get()),
            Expr::Size(node, a) => ExprShape::Unary(*node, Unary::Size, a.get()),
            Expr::Read(node, a, b) => ExprShape::Read(*node, a.get(), b.get()),
            Expr::Update(node, a, i, x) => ExprShape::Update(*node, a.get(), i.get(), x.get()),
            Expr::SeqLit(node, t, es) => ExprShape::Sequence(*node, t, es.as_slice()),
            Expr::Rec(node, n, es) => ExprShape::Record(*node, *n, es.as_slice()),
            Expr::Field(node, a, k) => ExprShape::Unary(*node, Unary::Field(*k), a.get()),
        }
    }
}
