ghost use Rattle.std.specs.Prelude.{◌≡◌};
ghost use Rattle.slang_values.specs.Tree.{holds_of};
ghost use Rattle.slang_values.specs.Number.{numbers_between};
ghost use Rattle.run_stops.specs.ClaimStops.{visit};
ghost use Rattle.lk_programs.specs.Program.{record_types};
ghost use Rattle.claim_values.specs.Answers.{AnswersClaim, AnswersClaims, AnswersTest, IsTruth, counted, holds_at, visits_at};

use crate::bounds::bound_at;
use crate::ending::ClaimEnd;
use crate::{forms, made};
use expression_values::Env;
use lk_claims::{Claim, Shape};
use lk_programs::RecordTy;
use run_values::{Held, Value};
use slang_values::Quantifier;
use sqlite_items::Items;
use std::alloc::Global;

/// The truth value of the claim, or why its test stops. `visits` is what is left, of which each body of a quantifier takes one.
pub fn eval_claim(
    alloc: Global,
    records: &[RecordTy],
    claim: &Claim,
    env: &Env,
    visits: &mut u64,
) -> Result<bool, ClaimEnd>
    ensures { AnswersTest (record_types records.now) env.now claim.now visits.old visits.new result }
{
    let mut bound = Items::new(alloc);
    forms::truth_found(held(alloc, records, env, claim, &mut bound, visits))
}

#[cycle(visiting)]
fn held<'e>(
    alloc: Global,
    records: &[RecordTy],
    env: &'e Env,
    claim: &Claim,
    bound: &mut Items<i128>,
    visits: &mut u64,
) -> Result<Held<'e>, ClaimEnd>
    ensures answer { AnswersClaim (record_types records.now) env.now bound.old claim.now visits.old visits.new result }
    ensures kept { bound.new ≡ bound.old }
{
    match claim.shape() {
        Shape::Literal(z) => made::number(z),
        Shape::Truth(b) => made::truth(b),
        Shape::Variable(n) => made::fitting(env.variable(n)),
        Shape::Bound(n) => made::number(bound_at(bound, n)),
        Shape::OldVariable(_) => made::nothing(),
        Shape::LetSymbol(_) => made::nothing(),
        Shape::Unary(op, a) => forms::unary(op, held(alloc, records, env, a, bound, visits)),
        Shape::Binary(op, a, b) => forms::binary(
            alloc,
            records,
            op,
            held(alloc, records, env, a, bound, visits),
            held(alloc, records, env, b, bound, visits),
        ),
        Shape::Update(a, i, x) => forms::update(
            alloc,
            held(alloc, records, env, a, bound, visits),
            held(alloc, records, env, i, bound, visits),
            held(alloc, records, env, x, bound, visits),
        ),
        Shape::Quantified(quantifier, low, high, body) => {
            let low = held(alloc, records, env, low, bound, visits);
            let high = held(alloc, records, env, high, bound, visits);
            match forms::range(low, high) {
                Err(end) => Err(end),
                Ok(ends) => forms::quantified(bodies(
                    alloc, records, env, quantifier, ends.0, ends.1, body, bound, visits,
                )),
            }
        }
        Shape::Sequence(ty, elements) => forms::sequence(
            alloc,
            ty,
            all_held(alloc, records, env, elements, bound, visits),
        ),
        Shape::Record(number, fields) => forms::record_by_fields(
            number,
            all_held(alloc, records, env, fields, bound, visits),
        ),
    }
}

#[cycle(visiting)]
fn all_held(
    alloc: Global,
    records: &[RecordTy],
    env: &Env,
    claims: &[Claim],
    bound: &mut Items<i128>,
    visits: &mut u64,
) -> Result<Items<Value>, ClaimEnd>
    ensures answer { AnswersClaims (record_types records.now) env.now bound.old claims.now visits.old visits.new result }
    ensures kept { bound.new ≡ bound.old }
{
    let mut values = Items::new(alloc);
    'each: for claim in claims {
        match forms::owned(alloc, held(alloc, records, env, claim, bound, visits)) {
            Err(end) => return Err(end),
            Ok(value) => values.push(value)?,
        }
    }
    Ok(values)
}

/// A quantifier, by its bodies for the numbers from low on that are below high, up to the first that decides.
#[cycle(visiting)]
fn bodies(
    alloc: Global,
    records: &[RecordTy],
    env: &Env,
    quantifier: Quantifier,
    low: i128,
    high: i128,
    body: &Claim,
    bound: &mut Items<i128>,
    visits: &mut u64,
) -> Result<bool, ClaimEnd>
    ensures answer { IsTruth (visit quantifier (holds_at (record_types records.now) env.now bound.old body.now) (visits_at (record_types records.now) env.now bound.old body.now)
        (numbers_between low high) visits.old) visits.new (holds_of quantifier (holds_at (record_types records.now) env.now bound.old body.now) (numbers_between low high)) result }
    ensures kept { bound.new ≡ bound.old }
{
    let mut k = low;
    'range: while k < high {
        match one_body(alloc, records, env, body, k, bound, visits) {
            Err(end) => return Err(end),
            Ok(holds) => {
                if forms::decides(quantifier, holds) {
                    return Ok(holds);
                }
            }
        }
        k += 1;
    }
    Ok(forms::without_bodies(quantifier))
}

/// A body of a quantifier whose variable has this value.
#[cycle(visiting)]
fn one_body(
    alloc: Global,
    records: &[RecordTy],
    env: &Env,
    body: &Claim,
    k: i128,
    bound: &mut Items<i128>,
    visits: &mut u64,
) -> Result<bool, ClaimEnd>
    ensures answer { IsTruth (counted (visits_at (record_types records.now) env.now bound.old body.now k) visits.old) visits.new (holds_at (record_types records.now) env.now bound.old body.now k) result }
    ensures kept { bound.new ≡ bound.old }
{
    if *visits == 0 {
        return Err(ClaimEnd::Visits);
    }
    *visits -= 1;
    match bound.push(k) {
        Err(_) => Err(ClaimEnd::NoMemory),
        Ok(()) => {
            let found = forms::truth_found(held(alloc, records, env, body, bound, visits));
            let _ = bound.pop();
            found
        }
    }
}
