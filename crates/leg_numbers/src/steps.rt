ghost use Rattle.std.specs.Prelude.{◌≡◌, IfOk, map};
ghost use Rattle.program_trees.specs.Claims.{renamed_step};
ghost use Rattle.lk_claims.specs.Step.{step_tree};
ghost use Rattle.leg_items.specs.Names.{frame_name};
ghost use Rattle.leg_numbers.specs.Numbered.{numbered_step};

use crate::NoMemory;
use crate::claims::claim_numbered;
use leg_items::Frame;
use leg_orders::Order;
use lk_claims::ProofStep;
use owned_results::both;
use sqlite_items::Items;
use std::alloc::Global;

/// The step over numbers.
#[cycle(steps)]
#[tactic(auto, using(lk_claims::proofs::Steps::step_lines, crate::proofs::NumberedLines::step_lists))]
fn step_numbered(
    alloc: Global,
    order: &Order,
    frame: Frame,
    step: &ProofStep,
) -> Result<ProofStep, NoMemory>
    ensures { IfOk result (λ s. step_tree s ≡ numbered_step order.now (renamed_step (frame_name frame) (step_tree step.now))) }
{
    match step {
        ProofStep::Line {
            label,
            claim,
            rule,
            cites,
        } => {
            let (claim, cites) = both(
                claim_numbered(alloc, order, frame, claim),
                Items::from_slice(alloc, cites.as_slice()),
            )?;
            Ok(ProofStep::Line {
                label: *label,
                claim,
                rule: *rule,
                cites,
            })
        }
        ProofStep::Sub {
            label,
            bind,
            assumed,
            assumption,
            steps,
        } => {
            let (assumption, steps) = both(
                claim_numbered(alloc, order, frame, assumption),
                steps_numbered(alloc, order, frame, steps.as_slice()),
            )?;
            Ok(ProofStep::Sub {
                label: *label,
                bind: *bind,
                assumed: *assumed,
                assumption,
                steps,
            })
        }
    }
}

/// The steps over numbers.
#[cycle(steps)]
pub(crate) fn steps_numbered(
    alloc: Global,
    order: &Order,
    frame: Frame,
    steps: &[ProofStep],
) -> Result<Items<ProofStep>, NoMemory>
    ensures { IfOk result (λ ss. map step_tree ss ≡ map (λ step. numbered_step order.now (renamed_step (frame_name frame) (step_tree step))) steps.now) }
{
    let mut numbered = Items::new(alloc);
    for step in steps {
        numbered.push(step_numbered(alloc, order, frame, step)?)?;
    }
    Ok(numbered)
}
