ghost use Rattle.std.specs.Prelude.{◌≡◌, IfOk};
ghost use Rattle.lk_claims.specs.Claim.{claim_tree};
ghost use Rattle.program_trees.specs.Operators.{connected, connective as connective_of, exchanged, negated};

use crate::NoMemory;
use crate::claim::Claim;
use slang_tree::Operator;
use slang_values::{Binary, Unary};
use std::alloc::Global;

/// The connective of claims that an operator of the text stands for, up to `is_exchanged` and `is_negated`.
pub fn connective(operator: Operator) -> Binary
    ensures { result ≡ connective_of operator }
{
    match operator {
        Operator::LooseImply | Operator::LooseCondImply | Operator::Imply | Operator::CondImply =>
            Binary::Imply,
        Operator::Or | Operator::CondOr => Binary::Or,
        Operator::And | Operator::CondAnd => Binary::And,
        Operator::Eq | Operator::Ne => Binary::Eq,
        Operator::Lt | Operator::Gt => Binary::Lt,
        Operator::Le | Operator::Ge => Binary::Le,
        Operator::Append => Binary::Append,
        Operator::Add => Binary::Add,
        Operator::Sub => Binary::Sub,
        Operator::Mul => Binary::Mul,
        Operator::Div => Binary::Div,
        Operator::Rem => Binary::Rem,
    }
}

/// Whether the operator is its connective with the operands exchanged.
pub fn is_exchanged(operator: Operator) -> bool
    ensures { result ≡ exchanged operator }
{
    matches!(operator, Operator::Gt | Operator::Ge)
}

/// Whether the operator is the negation of its connective.
pub fn is_negated(operator: Operator) -> bool
    ensures { result ≡ negated operator }
{
    matches!(operator, Operator::Ne)
}

impl Claim {
    /// What an operator of the text says of two claims.
    pub fn connected(
        alloc: Global,
        operator: Operator,
        left: Claim,
        right: Claim,
    ) -> Result<Claim, NoMemory>
        ensures { IfOk result (λ c. claim_tree c ≡ connected operator (claim_tree left) (claim_tree right)) }
    {
        let op = connective(operator);
        if is_exchanged(operator) {
            return Claim::binary(alloc, op, right, left);
        }
        let claim = Claim::binary(alloc, op, left, right)?;
        if is_negated(operator) {
            return Claim::unary(alloc, Unary::Not, claim);
        }
        Ok(claim)
    }
}
