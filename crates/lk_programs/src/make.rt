ghost use Rattle.std.specs.Prelude.{◌≡◌, IfOk};
ghost use Rattle.program_trees.specs.Programs.{truth, unary, binary, read, update};
ghost use Rattle.lk_programs.specs.Expr.{typed_expr};

use crate::NoMemory;
use crate::expression::{Expr, NodeNo};
use owned_results::{all_three, both};
use slang_tree::Operator;
use slang_values::Unary;
use sqlite_items::Boxed;
use std::alloc::Global;

impl Expr {
    #[tactic(auto, using(crate::proofs::Exprs::leaf_lines))]
    pub fn truth(node: NodeNo, value: bool) -> Expr
        ensures { typed_expr result ≡ truth node.0 value }
    {
        if value {
            Expr::True(node)
        } else {
            Expr::False(node)
        }
    }

    pub fn unary(alloc: Global, node: NodeNo, op: Unary, a: Expr) -> Result<Expr, NoMemory>
        ensures { IfOk result (λ e. typed_expr e ≡ unary node.0 op (typed_expr a)) }
    {
        let a = Boxed::new(alloc, a)?;
        match op {
            Unary::Neg => Ok(Expr::Neg(node, a)),
            Unary::Not => Ok(Expr::Not(node, a)),
            Unary::Size => Ok(Expr::Size(node, a)),
            Unary::Field(k) => Ok(Expr::Field(node, a, k)),
        }
    }

    pub fn binary(
        alloc: Global,
        node: NodeNo,
        operator: Operator,
        a: Expr,
        b: Expr,
    ) -> Result<Expr, NoMemory>
        ensures { IfOk result (λ e. typed_expr e ≡ binary node.0 operator (typed_expr a) (typed_expr b)) }
    {
        let (a, b) = boxed_two(alloc, a, b)?;
        match operator {
            Operator::LooseImply => Ok(Expr::LooseImply(node, a, b)),
            Operator::LooseCondImply => Ok(Expr::LooseCondImply(node, a, b)),
            Operator::Or => Ok(Expr::Or(node, a, b)),
            Operator::CondOr => Ok(Expr::CondOr(node, a, b)),
            Operator::And => Ok(Expr::And(node, a, b)),
            Operator::CondAnd => Ok(Expr::CondAnd(node, a, b)),
            Operator::Eq => Ok(Expr::Eq(node, a, b)),
            Operator::Ne => Ok(Expr::Ne(node, a, b)),
            Operator::Lt => Ok(Expr::Lt(node, a, b)),
            Operator::Le => Ok(Expr::Le(node, a, b)),
            Operator::Gt => Ok(Expr::Gt(node, a, b)),
            Operator::Ge => Ok(Expr::Ge(node, a, b)),
            Operator::Append => Ok(Expr::Append(node, a, b)),
            Operator::Imply => Ok(Expr::Imply(node, a, b)),
            Operator::CondImply => Ok(Expr::CondImply(node, a, b)),
            Operator::Add => Ok(Expr::Add(node, a, b)),
            Operator::Sub => Ok(Expr::Sub(node, a, b)),
            Operator::Mul => Ok(Expr::Mul(node, a, b)),
            Operator::Div => Ok(Expr::Div(node, a, b)),
            Operator::Rem => Ok(Expr::Rem(node, a, b)),
        }
    }

    /// The element of a sequence at a place.
    #[tactic(auto, using(crate::proofs::Exprs::sequence_lines))]
    pub fn read(alloc: Global, node: NodeNo, a: Expr, i: Expr) -> Result<Expr, NoMemory>
        ensures { IfOk result (λ e. typed_expr e ≡ read node.0 (typed_expr a) (typed_expr i)) }
    {
        let (a, i) = boxed_two(alloc, a, i)?;
        Ok(Expr::Read(node, a, i))
    }

    /// The sequence with another element at a place.
    #[tactic(auto, using(crate::proofs::Exprs::sequence_lines))]
    pub fn update(alloc: Global, node: NodeNo, a: Expr, i: Expr, x: Expr) -> Result<Expr, NoMemory>
        ensures { IfOk result (λ e. typed_expr e ≡ update node.0 (typed_expr a) (typed_expr i) (typed_expr x)) }
    {
        let (a, i, x) = boxed_three(alloc, a, i, x)?;
        Ok(Expr::Update(node, a, i, x))
    }
}

fn boxed_two(alloc: Global, a: Expr, b: Expr) -> Result<(Boxed<Expr>, Boxed<Expr>), NoMemory>
    ensures { IfOk result (λ p. (p.0 ≡ a) × (p.1 ≡ b)) }
{
    both(Boxed::new(alloc, a), Boxed::new(alloc, b))
}

fn boxed_three(
    alloc: Global,
    a: Expr,
    b: Expr,
    c: Expr,
) -> Result<(Boxed<Expr>, Boxed<Expr>, Boxed<Expr>), NoMemory>
    ensures { IfOk result (λ p. (p.0 ≡ a) × (p.1 ≡ b) × (p.2 ≡ c)) }
{
    all_three(
        Boxed::new(alloc, a),
        Boxed::new(alloc, b),
        Boxed::new(alloc, c),
    )
}
