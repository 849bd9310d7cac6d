ghost use Rattle.std.specs.Prelude.{◌≡◌, IfOk, map};
ghost use Rattle.lk_claims.specs.Step.{step_tree};

use crate::NoMemory;
use lk_claims::ProofStep;
use owned_results::both;
use sqlite_items::Items;
use std::alloc::Global;

/// The same step.
#[cycle(copy)]
#[tactic(auto, using(crate::proofs::StepLines::copy_lines))]
fn copy_step(alloc: Global, step: &ProofStep) -> Result<ProofStep, NoMemory>
    ensures { IfOk result (λ s. step_tree s ≡ step_tree step.now) }
{
    match step {
        ProofStep::Line {
            label,
            claim,
            rule,
            cites,
        } => {
            let (claim, cites) = both(
                claim.copy(alloc),
                Items::from_slice(alloc, cites.as_slice()),
            )?;
            Ok(ProofStep::Line {
                label: *label,
                claim,
                rule: *rule,
                cites,
            })
        }
        ProofStep::Sub {
            label,
            bind,
            assumed,
            assumption,
            steps,
        } => {
            let (assumption, steps) = both(
                assumption.copy(alloc),
                copy_steps(alloc, steps.as_slice()),
            )?;
            Ok(ProofStep::Sub {
                label: *label,
                bind: *bind,
                assumed: *assumed,
                assumption,
                steps,
            })
        }
    }
}

/// The same steps.
#[cycle(copy)]
pub fn copy_steps(alloc: Global, steps: &[ProofStep]) -> Result<Items<ProofStep>, NoMemory>
    ensures { IfOk result (λ copies. map step_tree copies ≡ map step_tree steps.now) }
{
    let mut copies = Items::new(alloc);
    for step in steps {
        copies.push(copy_step(alloc, step)?)?;
    }
    Ok(copies)
}
