ghost use Rattle.std.specs.Prelude.{◌≡◌, IfOk, OnOk, map};
ghost use Rattle.lk_claims.specs.Claim.{claim_tree, value_type};
ghost use Rattle.lk_claims.specs.Step.{step_tree, step_trees};
ghost use Rattle.claim_types.specs.Views.{records_of};
ghost use Rattle.step_checks.specs.Tests.{block_passes as block_pass, step_passes as passes, steps_pass as pass};

use crate::NoMemory;
use crate::claims::{given_passes, is_rule};
use lk_claims::{Claim, ProofStep, Ty};
use sqlite_items::Items;

/// Whether a step is well typed and well formed, where so many blocks may stand one inside another.
#[cycle(steps)]
#[tactic(auto, using(lk_claims::proofs::Steps::step_lines))]
fn step_passes(
    records: &[Items<Ty>],
    vars: &[Ty],
    labels: &mut Items<u32>,
    depth: u32,
    step: &ProofStep,
) -> Result<bool, NoMemory>
    ensures answer { IfOk result (λ b. b ≡ passes (records_of records.now) (map value_type vars.now) labels.old depth (step_tree step.now)) }
    ensures labels { OnOk result (labels.new ≡ labels.old) }
{
    match step {
        ProofStep::Line { claim, rule, .. } => {
            Ok(given_passes(records, vars, labels.as_slice(), claim) && is_rule(*rule))
        }
        ProofStep::Sub {
            label,
            bind,
            assumption,
            steps,
            ..
        } => {
            if *bind {
                labels.push(*label)?;
                let passes = block_passes(
                    records,
                    vars,
                    labels,
                    depth,
                    assumption,
                    steps.as_slice(),
                )?;
                labels.pop();
                Ok(passes)
            } else {
                block_passes(records, vars, labels, depth, assumption, steps.as_slice())
            }
        }
    }
}

/// Whether the assumption and the steps of a block are well typed and well formed.
#[cycle(steps)]
fn block_passes(
    records: &[Items<Ty>],
    vars: &[Ty],
    labels: &mut Items<u32>,
    depth: u32,
    assumption: &Claim,
    steps: &[ProofStep],
) -> Result<bool, NoMemory>
    ensures answer { IfOk result (λ b. b ≡ block_pass (records_of records.now) (map value_type vars.now) labels.old depth (claim_tree assumption.now) (step_trees steps.now)) }
    ensures labels { OnOk result (labels.new ≡ labels.old) }
{
    if !given_passes(records, vars, labels.as_slice(), assumption) {
        return Ok(false);
    }
    if depth == 0 {
        return Ok(steps.is_empty());
    }
    steps_pass(records, vars, labels, depth - 1, steps)
}

/// Whether the steps are well typed and well formed, where so many blocks may stand one inside another.
#[cycle(steps)]
pub fn steps_pass(
    records: &[Items<Ty>],
    vars: &[Ty],
    labels: &mut Items<u32>,
    depth: u32,
    steps: &[ProofStep],
) -> Result<bool, NoMemory>
    ensures answer { IfOk result (λ b. b ≡ pass (records_of records.now) (map value_type vars.now) labels.old depth (step_trees steps.now)) }
    ensures labels { OnOk result (labels.new ≡ labels.old) }
{
    for step in steps {
        if !step_passes(records, vars, labels, depth, step)? {
            return Ok(false);
        }
    }
    Ok(true)
}
