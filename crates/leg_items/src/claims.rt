ghost use Rattle.std.specs.Prelude.{◌≡◌, IfOk, map};
ghost use Rattle.slang_values.specs.Tree.{binary, update};
ghost use Rattle.slang_values.specs.declared.operators.Binary.{Binary};
ghost use Rattle.lk_claims.specs.Claim.{claim_tree};
ghost use Rattle.lk_programs.specs.Expr.{typed_expr};
ghost use Rattle.program_trees.specs.Operators.{connected};
ghost use Rattle.program_trees.specs.Programs.{claim_of as claim_of_expr};

use crate::NoMemory;
use lk_claims::Claim;
use lk_programs::{Expr, ExprShape};
use owned_results::{all_three, both};
use slang_tree::Operator;
use slang_values::Binary;
use sqlite_items::Items;
use std::alloc::Global;

/// The claim that has the value of the expression, where it does not fail.
#[cycle(claim)]
#[tactic(auto, using(crate::proofs::ClaimLines::claim_lines))]
pub fn claim_of(alloc: Global, expr: &Expr) -> Result<Claim, NoMemory>
    ensures { IfOk result (λ c. claim_tree c ≡ claim_of_expr (typed_expr expr.now)) }
{
    match expr.shape() {
        ExprShape::Literal(_, z) => Ok(Claim::Lit(z)),
        ExprShape::Truth(_, b) => Ok(Claim::truth(b)),
        ExprShape::Variable(_, n) => Ok(Claim::Var(n)),
        ExprShape::Unary(_, op, a) => Claim::unary(alloc, op, claim_of(alloc, a)?),
        ExprShape::Binary(_, operator, a, b) => claim_of_operator(alloc, a, b, operator),
        ExprShape::Read(_, a, i) => claim_of_read(alloc, a, i),
        ExprShape::Update(_, a, i, x) => claim_of_update(alloc, a, i, x),
        ExprShape::Sequence(_, t, es) => {
            let (t, cs) = both(t.copy(alloc), claims_of(alloc, es))?;
            Ok(Claim::SeqLit(t, cs))
        }
        ExprShape::Record(_, n, es) => Ok(Claim::Rec(n, claims_of(alloc, es)?)),
    }
}

#[cycle(claim)]
fn claim_of_operator(
    alloc: Global,
    a: &Expr,
    b: &Expr,
    operator: Operator,
) -> Result<Claim, NoMemory>
    ensures { IfOk result (λ c. claim_tree c ≡ connected operator (claim_of_expr (typed_expr a.now)) (claim_of_expr (typed_expr b.now))) }
{
    let (a, b) = both(claim_of(alloc, a), claim_of(alloc, b))?;
    Claim::connected(alloc, operator, a, b)
}

#[cycle(claim)]
fn claim_of_read(alloc: Global, a: &Expr, i: &Expr) -> Result<Claim, NoMemory>
    ensures { IfOk result (λ c. claim_tree c ≡ binary Binary.Read (claim_of_expr (typed_expr a.now)) (claim_of_expr (typed_expr i.now))) }
{
    let (a, i) = both(claim_of(alloc, a), claim_of(alloc, i))?;
    Claim::binary(alloc, Binary::Read, a, i)
}

#[cycle(claim)]
fn claim_of_update(alloc: Global, a: &Expr, i: &Expr, x: &Expr) -> Result<Claim, NoMemory>
    ensures { IfOk result (λ c. claim_tree c ≡ update (claim_of_expr (typed_expr a.now)) (claim_of_expr (typed_expr i.now)) (claim_of_expr (typed_expr x.now))) }
{
    let (a, i, x) = all_three(claim_of(alloc, a), claim_of(alloc, i), claim_of(alloc, x))?;
    Claim::update(alloc, a, i, x)
}

#[cycle(claim)]
#[tactic(auto, using(lk_programs::proofs::Sizes::deepest_lines))]
fn claims_of(alloc: Global, exprs: &[Expr]) -> Result<Items<Claim>, NoMemory>
    ensures { IfOk result (λ cs. map claim_tree cs ≡ map (λ expr. claim_of_expr (typed_expr expr)) exprs.now) }
{
    let mut claims = Items::new(alloc);
    for expr in exprs {
        claims.push(claim_of(alloc, expr)?)?;
    }
    Ok(claims)
}
