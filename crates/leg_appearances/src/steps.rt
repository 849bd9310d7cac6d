ghost use Rattle.std.specs.Prelude.{◌≡◌, ◌++◌, map};
ghost use Rattle.lk_claims.specs.Claim.{claim_tree, value_type};
ghost use Rattle.lk_claims.specs.Step.{step_tree, step_trees};
ghost use Rattle.leg_appearances.specs.Seen.{all_seen, appearing, step_appearing, steps_appearing};

use crate::claims::with_claim;
use crate::variables::Seen;
use lk_claims::{Claim, ProofStep, Ty};
use record_checks::Summary;

/// What a step names appears.
#[cycle(steps)]
#[tactic(auto, using(lk_claims::proofs::Steps::step_lines))]
fn with_step(table: &[Summary], vars: &[Ty], seen: Seen, step: &ProofStep) -> Option<Seen>
    ensures { result ≡ all_seen table.now (map value_type vars.now) seen (step_appearing (step_tree step.now)) }
{
    match step {
        ProofStep::Line { claim, .. } => with_claim(table, vars, seen, claim),
        ProofStep::Sub {
            assumption,
            steps,
            ..
        } => with_block(table, vars, seen, assumption, steps.as_slice()),
    }
}

/// What a block assumes appears, and then its steps.
#[cycle(steps)]
fn with_block(
    table: &[Summary],
    vars: &[Ty],
    seen: Seen,
    assumption: &Claim,
    steps: &[ProofStep],
) -> Option<Seen>
    ensures { result ≡ all_seen table.now (map value_type vars.now) seen (appearing (claim_tree assumption.now) ++ steps_appearing (step_trees steps.now)) }
{
    match with_claim(table, vars, seen, assumption) {
        Some(next) => with_steps(table, vars, next, steps),
        None => None,
    }
}

/// What steps name appears, one after the other.
#[cycle(steps)]
pub fn with_steps(table: &[Summary], vars: &[Ty], seen: Seen, steps: &[ProofStep]) -> Option<Seen>
    ensures { result ≡ all_seen table.now (map value_type vars.now) seen (steps_appearing (step_trees steps.now)) }
{
    let mut so_far = seen;
    for step in steps {
        match with_step(table, vars, so_far, step) {
            Some(next) => so_far = next,
            None => return None,
        }
    }
    Some(so_far)
}
