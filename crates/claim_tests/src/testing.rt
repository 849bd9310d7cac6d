ghost use Rattle.std.specs.Prelude.{◌≡◌, ℕ, Bool, [], ◌∷◌, IfOk};
ghost use Rattle.run_stops.specs.ClaimStops.{Visited};
ghost use Rattle.stopped_runs.specs.Tests as plain;
ghost use Rattle.stopped_runs.specs.Tests.{test, claim_test};
ghost use Rattle.lk_programs.specs.Program.{record_types};
ghost use Rattle.expression_values.specs.Environment.{values_in};
ghost use Rattle.claim_tests.specs.Tested.{tested, noted_in, one_noted, IsFailed};
ghost use Rattle.claim_values.specs.Answers.{IsTruth};

use crate::NoMemory;
use claim_values::{ClaimEnd, eval_claim};
use expression_values::Env;
use lk_programs::{NodeNo, Noted, RecordTy};
use std::alloc::{AllocError, Global};

/// What claims come to that are tested in order: all hold, or the claim of that node is false, has a value that does not fit,
/// or is due a body of a quantifier and has no visit left.
#[derive(Clone, Copy, Debug, PartialEq, Eq, Drop)]
pub enum Tested {
    AllHold,
    IsFalse(NodeNo),
    IsWide(NodeNo),
    IsOut(NodeNo),
}

/// What a claim that does not hold comes to, by what was found; nothing where it holds.
fn failed(node: NodeNo, answer: Result<bool, ClaimEnd>) -> Result<Option<Tested>, NoMemory>
    ensures { (visited : Visited) (rest : ℕ) (holds : Bool) (others : plain.Tested) → IsTruth visited rest holds answer
        → IfOk result (λ found. IsFailed (claim_test node.0 visited holds others) others found) }
{
    match answer {
        Ok(holds) => {
            if holds {
                Ok(None)
            } else {
                Ok(Some(Tested::IsFalse(node)))
            }
        }
        Err(end) => match end {
            ClaimEnd::Wide => Ok(Some(Tested::IsWide(node))),
            ClaimEnd::Visits => Ok(Some(Tested::IsOut(node))),
            ClaimEnd::NoMemory => Err(AllocError),
        },
    }
}

/// Tests one claim.
pub fn test_claim(
    alloc: Global,
    records: &[RecordTy],
    noted: &Noted,
    env: &Env,
    limit: u64,
) -> Result<Tested, NoMemory>
    ensures { IfOk result (λ t. tested t ≡ test limit (record_types records.now) (values_in env.now) (one_noted env.now noted.now ∷ [])) }
{
    let mut visits = limit;
    let answer = eval_claim(alloc, records, &noted.claim, env, &mut visits);
    match failed(noted.node, answer)? {
        Some(tested) => Ok(tested),
        None => Ok(Tested::AllHold),
    }
}

/// Tests the claims in order. Each has that many visits of its own.
pub fn test_claims(
    alloc: Global,
    records: &[RecordTy],
    claims: &[Noted],
    env: &Env,
    limit: u64,
) -> Result<Tested, NoMemory>
    ensures { IfOk result (λ t. tested t ≡ test limit (record_types records.now) (values_in env.now) (noted_in env.now claims.now)) }
{
    'tests: for noted in claims {
        let mut visits = limit;
        let answer = eval_claim(alloc, records, &noted.claim, env, &mut visits);
        match failed(noted.node, answer)? {
            Some(tested) => return Ok(tested),
            None => {}
        }
    }
    Ok(Tested::AllHold)
}
