ghost use Rattle.std.specs.Prelude.{◌≡◌, ◌<◌, ◌≤◌, [], ◌∷◌, length, slice_get, Some};
ghost use Rattle.slang_values.specs.Tree.{parts, tree_list};
ghost use Rattle.lk_claims.specs.declared.claim.Claim.{size-Claim};
ghost use Rattle.lk_claims.specs.Shape.{deepest};
ghost use Rattle.lk_claims.specs.Claim.{claim_tree, claim_trees};

use lk_claims::{Claim, Shape};

/// How many parts the claim has.
pub fn part_count(claim: &Claim) -> usize
    ensures { result ≡ length (parts (claim_tree claim.now)) }
{
    match claim.shape() {
        Shape::Literal(_) | Shape::Truth(_) | Shape::Bound(_) => 0,
        Shape::Variable(_) | Shape::OldVariable(_) | Shape::LetSymbol(_) => 0,
        Shape::Unary(_, _) => 1,
        Shape::Binary(_, _, _) => 2,
        Shape::Update(_, _, _) | Shape::Quantified(_, _, _, _) => 3,
        Shape::Sequence(_, claims) => count_of(claims),
        Shape::Record(_, claims) => count_of(claims),
    }
}

/// The part at a place, from 0 on the left.
pub fn part(claim: &Claim, place: usize) -> &Claim
    requires { place < length (parts (claim_tree claim.now)) }
    ensures value { slice_get (parts (claim_tree claim.now)) place ≡ Some (claim_tree result.now) }
    ensures smaller { size-Claim result.now < size-Claim claim.now }
{
    match claim.shape() {
        Shape::Literal(_) | Shape::Truth(_) | Shape::Bound(_) => unreachable!(),
        Shape::Variable(_) | Shape::OldVariable(_) | Shape::LetSymbol(_) => unreachable!(),
        Shape::Unary(_, a) => a,
        Shape::Binary(_, a, b) => one_of_two(place, a, b),
        Shape::Update(a, i, x) => one_of_three(place, a, i, x),
        Shape::Quantified(_, low, high, body) => one_of_three(place, low, high, body),
        Shape::Sequence(_, claims) => one_of(place, claims),
        Shape::Record(_, claims) => one_of(place, claims),
    }
}

fn one_of_two<'a>(place: usize, a: &'a Claim, b: &'a Claim) -> &'a Claim
    requires { place < 2 }
    ensures { slice_get (a.now ∷ b.now ∷ []) place ≡ Some result.now }
{
    if place == 0 { a } else { b }
}

fn one_of_three<'a>(place: usize, a: &'a Claim, b: &'a Claim, c: &'a Claim) -> &'a Claim
    requires { place < 3 }
    ensures { slice_get (a.now ∷ b.now ∷ c.now ∷ []) place ≡ Some result.now }
{
    match place {
        0 => a,
        1 => b,
        _ => c,
    }
}

#[tactic(auto, using(crate::proofs::PartLists::part_lines))]
fn count_of(claims: &[Claim]) -> usize
    ensures { result ≡ length (tree_list (claim_trees claims.now)) }
{
    claims.len()
}

#[tactic(auto, using(crate::proofs::PartLists::part_lines))]
fn one_of(place: usize, claims: &[Claim]) -> &Claim
    requires { place < length (tree_list (claim_trees claims.now)) }
    ensures value { slice_get (tree_list (claim_trees claims.now)) place ≡ Some (claim_tree result.now) }
    ensures small { size-Claim result.now ≤ deepest claims.now }
{
    &claims[place]
}
