ghost use Rattle.std.specs.Prelude.{◌≡◌, IfOk, map};
ghost use Rattle.slang_values.specs.Tree.{binary, update, quantified};
ghost use Rattle.lk_claims.specs.Claim.{claim_tree};

use crate::NoMemory;
use crate::claim::Claim;
use crate::shape::Shape;
use owned_results::{all_three, both};
use slang_values::{Binary, Quantifier};
use sqlite_items::Items;
use std::alloc::Global;

impl Claim {
    /// The same claim.
    pub fn copy(&self, alloc: Global) -> Result<Claim, NoMemory>
        ensures { IfOk result (λ c. claim_tree c ≡ claim_tree self.now) }
    {
        copy_of(alloc, self)
    }
}

#[cycle(copy)]
#[tactic(auto, using(crate::proofs::Trees::claim_lines))]
fn copy_of(alloc: Global, claim: &Claim) -> Result<Claim, NoMemory>
    ensures { IfOk result (λ c. claim_tree c ≡ claim_tree claim.now) }
{
    match claim.shape() {
        Shape::Literal(z) => Ok(Claim::Lit(z)),
        Shape::Truth(b) => Ok(Claim::truth(b)),
        Shape::Variable(n) => Ok(Claim::Var(n)),
        Shape::Bound(n) => Ok(Claim::Bound(n)),
        Shape::OldVariable(n) => Ok(Claim::OldVar(n)),
        Shape::LetSymbol(label) => Ok(Claim::LetSym(label)),
        Shape::Unary(op, a) => Claim::unary(alloc, op, copy_of(alloc, a)?),
        Shape::Binary(op, a, b) => copy_binary(alloc, a, b, op),
        Shape::Update(a, i, x) => copy_update(alloc, a, i, x),
        Shape::Quantified(q, low, high, body) => copy_quantified(alloc, low, high, body, q),
        Shape::Sequence(t, cs) => {
            let (t, cs) = both(t.copy(alloc), copy_all(alloc, cs))?;
            Ok(Claim::SeqLit(t, cs))
        }
        Shape::Record(n, cs) => Ok(Claim::Rec(n, copy_all(alloc, cs)?)),
    }
}

#[cycle(copy)]
fn copy_binary(alloc: Global, a: &Claim, b: &Claim, op: Binary) -> Result<Claim, NoMemory>
    ensures { IfOk result (λ c. claim_tree c ≡ binary op (claim_tree a.now) (claim_tree b.now)) }
{
    let (a, b) = both(copy_of(alloc, a), copy_of(alloc, b))?;
    Claim::binary(alloc, op, a, b)
}

#[cycle(copy)]
fn copy_update(alloc: Global, a: &Claim, i: &Claim, x: &Claim) -> Result<Claim, NoMemory>
    ensures { IfOk result (λ c. claim_tree c ≡ update (claim_tree a.now) (claim_tree i.now) (claim_tree x.now)) }
{
    let (a, i, x) = all_three(copy_of(alloc, a), copy_of(alloc, i), copy_of(alloc, x))?;
    Claim::update(alloc, a, i, x)
}

#[cycle(copy)]
fn copy_quantified(
    alloc: Global,
    low: &Claim,
    high: &Claim,
    body: &Claim,
    quantifier: Quantifier,
) -> Result<Claim, NoMemory>
    ensures { IfOk result (λ c. claim_tree c ≡ quantified quantifier (claim_tree low.now) (claim_tree high.now) (claim_tree body.now)) }
{
    let (low, high, body) = all_three(
        copy_of(alloc, low),
        copy_of(alloc, high),
        copy_of(alloc, body),
    )?;
    Claim::quantified(alloc, quantifier, low, high, body)
}

#[cycle(copy)]
#[tactic(auto, using(crate::proofs::Sizes::deepest_lines))]
fn copy_all(alloc: Global, claims: &[Claim]) -> Result<Items<Claim>, NoMemory>
    ensures { IfOk result (λ cs. map claim_tree cs ≡ map claim_tree claims.now) }
{
    let mut copies = Items::new(alloc);
    for claim in claims {
        copies.push(copy_of(alloc, claim)?)?;
    }
    Ok(copies)
}
