ghost use Rattle.std.specs.Prelude.{◌≡◌, ◌++◌, map};
ghost use Rattle.slang_values.specs.Tree.{listed, record_of, sequence_of};
ghost use Rattle.lk_claims.specs.Claim.{claim_tree, claim_trees, value_type};
ghost use Rattle.leg_appearances.specs.Seen.{all_seen, appearing, parts_appearing};

use crate::variables::{Seen, with_front, with_record_front, with_variable};
use lk_claims::{Claim, Shape, Ty};
use record_checks::Summary;

/// What a claim names appears, from the left.
#[cycle(claims)]
pub fn with_claim(table: &[Summary], vars: &[Ty], seen: Seen, claim: &Claim) -> Option<Seen>
    ensures { result ≡ all_seen table.now (map value_type vars.now) seen (appearing (claim_tree claim.now)) }
{
    match claim.shape() {
        Shape::Literal(_) => Some(seen),
        Shape::Truth(_) => Some(seen),
        Shape::Bound(_) => Some(seen),
        Shape::LetSymbol(_) => Some(seen),
        Shape::Variable(number) => with_variable(table, vars, seen, number),
        Shape::OldVariable(number) => with_variable(table, vars, seen, number),
        Shape::Unary(_, a) => with_claim(table, vars, seen, a),
        Shape::Binary(_, a, b) => with_two(table, vars, seen, a, b),
        Shape::Update(a, i, x) => with_three(table, vars, seen, a, i, x),
        Shape::Quantified(_, low, high, body) => with_three(table, vars, seen, low, high, body),
        Shape::Sequence(element, parts) => with_sequence(table, vars, seen, element, parts),
        Shape::Record(number, parts) => with_fields(table, vars, seen, number, parts),
    }
}

#[cycle(claims)]
fn with_two(table: &[Summary], vars: &[Ty], seen: Seen, a: &Claim, b: &Claim) -> Option<Seen>
    ensures { result ≡ all_seen table.now (map value_type vars.now) seen (appearing (claim_tree a.now) ++ appearing (claim_tree b.now)) }
{
    match with_claim(table, vars, seen, a) {
        Some(next) => with_claim(table, vars, next, b),
        None => None,
    }
}

#[cycle(claims)]
fn with_three(
    table: &[Summary],
    vars: &[Ty],
    seen: Seen,
    a: &Claim,
    b: &Claim,
    c: &Claim,
) -> Option<Seen>
    ensures { result ≡ all_seen table.now (map value_type vars.now) seen
        (appearing (claim_tree a.now) ++ (appearing (claim_tree b.now) ++ appearing (claim_tree c.now))) }
{
    match with_claim(table, vars, seen, a) {
        Some(next) => with_two(table, vars, next, b, c),
        None => None,
    }
}

#[cycle(claims)]
fn with_sequence(
    table: &[Summary],
    vars: &[Ty],
    seen: Seen,
    element: &Ty,
    parts: &[Claim],
) -> Option<Seen>
    ensures { result ≡ all_seen table.now (map value_type vars.now) seen (appearing (listed (sequence_of (value_type element.now)) (claim_trees parts.now))) }
{
    match with_front(table, seen, element) {
        Some(next) => with_parts(table, vars, next, parts),
        None => None,
    }
}

#[cycle(claims)]
fn with_fields(
    table: &[Summary],
    vars: &[Ty],
    seen: Seen,
    number: u32,
    parts: &[Claim],
) -> Option<Seen>
    ensures { result ≡ all_seen table.now (map value_type vars.now) seen (appearing (listed (record_of number) (claim_trees parts.now))) }
{
    match with_record_front(table, seen, number) {
        Some(next) => with_parts(table, vars, next, parts),
        None => None,
    }
}

#[cycle(claims)]
#[tactic(auto, using(lk_claims::proofs::Sizes::deepest_lines))]
fn with_parts(table: &[Summary], vars: &[Ty], seen: Seen, parts: &[Claim]) -> Option<Seen>
    ensures { result ≡ all_seen table.now (map value_type vars.now) seen (parts_appearing (claim_trees parts.now)) }
{
    let mut so_far = seen;
    for part in parts {
        match with_claim(table, vars, so_far, part) {
            Some(next) => so_far = next,
            None => return None,
        }
    }
    Some(so_far)
}
