ghost use Rattle.std.specs.Prelude.{◌≡◌, ◌++◌, ◌∷◌, [], OnOk, IfOk};
ghost use Rattle.program_trees.specs.Claims as forms;
ghost use Rattle.lk_claims.specs.Step.{step_tree, step_trees};
ghost use Rattle.item_checks.specs.Tests.{are_new};

use crate::NoMemory;
use lk_claims::ProofStep;
use sqlite_items::Items;
use std::alloc::Global;
use std::collections::BTreeSet;

/// Adds the label of a step, that of what it assumes, and those of the steps inside.
#[cycle(labels)]
#[tactic(auto, using(lk_claims::proofs::Steps::step_lines))]
fn add_labels_of(step: &ProofStep, labels: &mut Items<u32>) -> Result<(), NoMemory>
    ensures { OnOk result (labels.new ≡ labels.old ++ forms.step_labels (step_tree step.now)) }
{
    match step {
        ProofStep::Line { label, .. } => labels.push(*label),
        ProofStep::Sub {
            label,
            assumed,
            steps,
            ..
        } => add_block(steps.as_slice(), labels, *label, *assumed),
    }
}

/// Adds the labels of a block.
#[cycle(labels)]
fn add_block(
    steps: &[ProofStep],
    labels: &mut Items<u32>,
    label: u32,
    assumed: u32,
) -> Result<(), NoMemory>
    ensures { OnOk result (labels.new ≡ labels.old ++ (label ∷ assumed ∷ forms.labels (step_trees steps.now))) }
{
    labels.push(label)?;
    labels.push(assumed)?;
    add_labels(steps, labels)
}

/// Adds the labels of some steps.
#[cycle(labels)]
fn add_labels(steps: &[ProofStep], labels: &mut Items<u32>) -> Result<(), NoMemory>
    ensures { OnOk result (labels.new ≡ labels.old ++ forms.labels (step_trees steps.now)) }
{
    for step in steps {
        add_labels_of(step, labels)?;
    }
    Ok(())
}

/// Whether no number stands twice.
fn are_distinct(alloc: Global, numbers: &[u32]) -> Result<bool, NoMemory>
    ensures { IfOk result (λ b. b ≡ are_new [] numbers.now) }
{
    let mut seen: BTreeSet<u32> = BTreeSet::new(alloc);
    for number in numbers {
        let new = seen.insert(*number)?;
        if !new {
            return Ok(false);
        }
    }
    Ok(true)
}

/// Whether no label of the steps, of what they assume and of the steps inside stands twice.
pub fn has_distinct_labels(alloc: Global, steps: &[ProofStep]) -> Result<bool, NoMemory>
    ensures { IfOk result (λ b. b ≡ are_new [] (forms.labels (step_trees steps.now))) }
{
    let mut labels = Items::new(alloc);
    add_labels(steps, &mut labels)?;
    are_distinct(alloc, labels.as_slice())
}
