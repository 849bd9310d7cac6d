ghost use Rattle.std.specs.Prelude.{◌≡◌, ◌+◌, ◌<◌, ◌^◌, suc};
ghost use Rattle.claim_limits.specs.Limits.{all_within, within};
ghost use Rattle.lk_claims.specs.Claim.{claim_tree, claim_trees};

use lk_claims::{Claim, Shape};

/// Whether a claim is no higher than that, and inside that many quantifiers none of its bound variables is loose.
#[cycle(claims)]
pub fn is_within(claim: &Claim, height: u32, bound: u32) -> bool
    requires { bound + height < 2 ^ 32 }
    ensures { result ≡ within height bound (claim_tree claim.now) }
{
    if height == 0 {
        return false;
    }
    is_inside(claim, height - 1, bound)
}

/// The same, where that height is one more than the parts may have.
#[cycle(claims)]
fn is_inside(claim: &Claim, inside: u32, bound: u32) -> bool
    requires { bound + inside + 1 < 2 ^ 32 }
    ensures { result ≡ within (suc inside) bound (claim_tree claim.now) }
{
    match claim.shape() {
        Shape::Literal(_) => true,
        Shape::Truth(_) => true,
        Shape::Variable(_) => true,
        Shape::OldVariable(_) => true,
        Shape::LetSymbol(_) => true,
        Shape::Bound(number) => number < bound,
        Shape::Unary(_, a) => is_within(a, inside, bound),
        Shape::Binary(_, a, b) => is_within(a, inside, bound) && is_within(b, inside, bound),
        Shape::Update(a, i, x) => {
            is_within(a, inside, bound)
                && is_within(i, inside, bound)
                && is_within(x, inside, bound)
        }
        Shape::Quantified(_, low, high, body) => {
            is_within(low, inside, bound)
                && is_within(high, inside, bound)
                && is_within(body, inside, bound + 1)
        }
        Shape::Sequence(_, parts) => are_within(parts, inside, bound),
        Shape::Record(_, parts) => are_within(parts, inside, bound),
    }
}

#[cycle(claims)]
#[tactic(auto, using(lk_claims::proofs::Sizes::deepest_lines))]
fn are_within(parts: &[Claim], height: u32, bound: u32) -> bool
    requires { bound + height < 2 ^ 32 }
    ensures { result ≡ all_within height bound (claim_trees parts.now) }
{
    for part in parts {
        if !is_within(part, height, bound) {
            return false;
        }
    }
    true
}
