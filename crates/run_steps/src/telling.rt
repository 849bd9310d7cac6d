ghost use Rattle.std.specs.Prelude.{◌≡◌, ◌∷◌, []};
ghost use Rattle.program_trees.specs.Programs.{ProgramTree};
ghost use Rattle.program_trees.specs.Variables.{Variable};
ghost use Rattle.program_trees.specs.declared.answer.Kind.TheVariants as kinds;
ghost use Rattle.lk_programs.specs.Program.{record_types};
ghost use Rattle.run_rules.specs.Runs.{fails};
ghost use Rattle.expression_values.specs.Environment.{values_in};
ghost use Rattle.claim_tests.specs.Tested.{tested as plain_test, noted_in, one_noted};
ghost use Rattle.stopped_runs.specs.Runs.{reached, on_test, tested as plain_tested};
ghost use Rattle.stopped_runs.specs.Tests.{test};
ghost use Rattle.run_steps.specs.Ends.{Gives, Holds};

use crate::ending::RunEnd;
use claim_tests::{Tested, test_claim, test_claims};
use expression_values::Env;
use lk_programs::{Kind, NodeNo, Noted, RecordTy};
use std::alloc::Global;

/// The run goes on where the claims hold, and else stops. Each is told of at its own node.
pub fn tested(
    alloc: Global,
    records: &[RecordTy],
    claims: &[Noted],
    env: &Env,
    limit: u64,
    kind: Kind,
) -> Result<(), RunEnd>
    ensures { (program : ProgramTree Variable) → program.records ≡ record_types records.now
        → Gives Holds (plain_tested limit program kind (noted_in env.now claims.now) (values_in env.now)) result }
{
    match test_claims(alloc, records, claims, env, limit) {
        Err(_) => Err(RunEnd::NoMemory),
        Ok(found) => told(found, kind),
    }
}

/// The run goes on where the claim holds, and else stops.
pub fn one_tested(
    alloc: Global,
    records: &[RecordTy],
    noted: &Noted,
    env: &Env,
    limit: u64,
    kind: Kind,
) -> Result<(), RunEnd>
    ensures { (program : ProgramTree Variable) → program.records ≡ record_types records.now
        → Gives Holds (plain_tested limit program kind (one_noted env.now noted.now ∷ []) (values_in env.now)) result }
{
    match test_claim(alloc, records, noted, env, limit) {
        Err(_) => Err(RunEnd::NoMemory),
        Ok(found) => told(found, kind),
    }
}

/// The run goes on where the Requires hold, and else stops. A false one is told of at the given node.
pub fn tested_at(
    alloc: Global,
    records: &[RecordTy],
    claims: &[Noted],
    env: &Env,
    limit: u64,
    node: NodeNo,
) -> Result<(), RunEnd>
    ensures { Gives Holds (on_test (test limit (record_types records.now) (values_in env.now) (noted_in env.now claims.now)) (λ n. reached
        (fails kinds.Requires node.0))) result }
{
    match test_claims(alloc, records, claims, env, limit) {
        Err(_) => Err(RunEnd::NoMemory),
        Ok(found) => told_at(found, node),
    }
}

fn told(found: Tested, kind: Kind) -> Result<(), RunEnd>
    ensures { Gives Holds (on_test (plain_test found) (λ n. reached (fails kind n))) result }
{
    match found {
        Tested::AllHold => Ok(()),
        Tested::IsFalse(node) => Err(RunEnd::Fails(kind, node)),
        Tested::IsWide(node) => Err(RunEnd::Wide(node)),
        Tested::IsOut(node) => Err(RunEnd::Visits(node)),
    }
}

fn told_at(found: Tested, node: NodeNo) -> Result<(), RunEnd>
    ensures { Gives Holds (on_test (plain_test found) (λ n. reached (fails kinds.Requires node.0))) result }
{
    match found {
        Tested::AllHold => Ok(()),
        Tested::IsFalse(_) => Err(RunEnd::Fails(Kind::Requires, node)),
        Tested::IsWide(claim) => Err(RunEnd::Wide(claim)),
        Tested::IsOut(claim) => Err(RunEnd::Visits(claim)),
    }
}
