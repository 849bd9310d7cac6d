ghost use Rattle.std.specs.Prelude.{◌≡◌, IfOk, map};
ghost use Rattle.slang_values.specs.Tree.{binary, quantified, update};
ghost use Rattle.lk_claims.specs.Claim.{claim_tree};
ghost use Rattle.leg_items.specs.Drafts.{framed};
ghost use Rattle.leg_numbers.specs.Numbered.{numbered_claim};

use crate::NoMemory;
use crate::numbers::{number_of_name, number_of_record, type_numbered};
use leg_items::Frame;
use leg_orders::Order;
use lk_claims::{Claim, Shape};
use owned_results::{all_three, both};
use slang_values::{Binary, Quantifier};
use sqlite_items::Items;
use std::alloc::Global;

/// The claim over numbers.
#[cycle(claim)]
#[tactic(auto, using(lk_claims::proofs::Trees::claim_lines, crate::proofs::NumberedLines::numbered_lines))]
pub(crate) fn claim_numbered(
    alloc: Global,
    order: &Order,
    frame: Frame,
    claim: &Claim,
) -> Result<Claim, NoMemory>
    ensures { IfOk result (λ c. claim_tree c ≡ numbered_claim order.now (framed frame (claim_tree claim.now))) }
{
    match claim.shape() {
        Shape::Literal(z) => Ok(Claim::Lit(z)),
        Shape::Truth(b) => Ok(Claim::truth(b)),
        Shape::Variable(n) => Ok(Claim::Var(number_of_name(order, frame.name(n))?)),
        Shape::Bound(n) => Ok(Claim::Bound(n)),
        Shape::OldVariable(n) => Ok(Claim::OldVar(number_of_name(order, frame.name(n))?)),
        Shape::LetSymbol(label) => Ok(Claim::LetSym(label)),
        Shape::Unary(op, a) => { Claim::unary(alloc, op, claim_numbered(alloc, order, frame, a)?) }
        Shape::Binary(op, a, b) => binary_numbered(alloc, order, frame, a, b, op),
        Shape::Update(a, i, x) => update_numbered(alloc, order, frame, a, i, x),
        Shape::Quantified(quantifier, low, high, body) => {
            quantified_numbered(alloc, order, frame, low, high, body, quantifier)
        }
        Shape::Sequence(ty, claims) => {
            let (ty, claims) = both(
                type_numbered(alloc, order, ty),
                claims_numbered(alloc, order, frame, claims),
            )?;
            Ok(Claim::SeqLit(ty, claims))
        }
        Shape::Record(record, claims) => {
            let record = number_of_record(order, record)?;
            Ok(Claim::Rec(record, claims_numbered(alloc, order, frame, claims)?))
        }
    }
}

#[cycle(claim)]
fn binary_numbered(
    alloc: Global,
    order: &Order,
    frame: Frame,
    a: &Claim,
    b: &Claim,
    op: Binary,
) -> Result<Claim, NoMemory>
    ensures { IfOk result (λ c. claim_tree c ≡ binary op (numbered_claim order.now (framed frame (claim_tree a.now)))
        (numbered_claim order.now (framed frame (claim_tree b.now)))) }
{
    let (a, b) = both(
        claim_numbered(alloc, order, frame, a),
        claim_numbered(alloc, order, frame, b),
    )?;
    Claim::binary(alloc, op, a, b)
}

#[cycle(claim)]
fn update_numbered(
    alloc: Global,
    order: &Order,
    frame: Frame,
    a: &Claim,
    i: &Claim,
    x: &Claim,
) -> Result<Claim, NoMemory>
    ensures { IfOk result (λ c. claim_tree c ≡ update (numbered_claim order.now (framed frame (claim_tree a.now)))
        (numbered_claim order.now (framed frame (claim_tree i.now))) (numbered_claim order.now (framed frame (claim_tree x.now)))) }
{
    let (a, i, x) = all_three(
        claim_numbered(alloc, order, frame, a),
        claim_numbered(alloc, order, frame, i),
        claim_numbered(alloc, order, frame, x),
    )?;
    Claim::update(alloc, a, i, x)
}

#[cycle(claim)]
fn quantified_numbered(
    alloc: Global,
    order: &Order,
    frame: Frame,
    low: &Claim,
    high: &Claim,
    body: &Claim,
    quantifier: Quantifier,
) -> Result<Claim, NoMemory>
    ensures { IfOk result (λ c. claim_tree c ≡ quantified quantifier (numbered_claim order.now (framed frame (claim_tree low.now)))
        (numbered_claim order.now (framed frame (claim_tree high.now))) (numbered_claim order.now (framed frame (claim_tree body.now)))) }
{
    let (low, high, body) = all_three(
        claim_numbered(alloc, order, frame, low),
        claim_numbered(alloc, order, frame, high),
        claim_numbered(alloc, order, frame, body),
    )?;
    Claim::quantified(alloc, quantifier, low, high, body)
}

#[cycle(claim)]
#[tactic(auto, using(lk_claims::proofs::Sizes::deepest_lines))]
fn claims_numbered(
    alloc: Global,
    order: &Order,
    frame: Frame,
    claims: &[Claim],
) -> Result<Items<Claim>, NoMemory>
    ensures { IfOk result (λ cs. map claim_tree cs ≡ map (λ claim. numbered_claim order.now (framed frame (claim_tree claim))) claims.now) }
{
    let mut numbered = Items::new(alloc);
    for claim in claims {
        numbered.push(claim_numbered(alloc, order, frame, claim)?)?;
    }
    Ok(numbered)
}
