ghost use Rattle.std.specs.Prelude.{◌≡◌, ◌++◌, ◌∷◌, OnOk, map};
ghost use Rattle.slang_tree.specs.StmtTree.{step_tree, steps_of};
ghost use Rattle.type_rules.specs.Steps as rule;

use crate::NoMemory;
use slang_tree::{Label, Step};
use sqlite_items::Items;

/// Adds the label of a step, that of what it assumes, and those of the steps inside.
#[cycle(labels)]
#[tactic(auto, using(slang_tree::proofs::Lines::step_lines, step_judging::proofs::Sizes::smaller_lines))]
fn add_labels_of(step: &Step, labels: &mut Items<Label>) -> Result<(), NoMemory>
    ensures { OnOk result (labels.new ≡ labels.old ++ rule.labels_of_step (step_tree step.now)) }
{
    match step {
        Step::Line { label, .. } => labels.push(*label),
        Step::Sub {
            label,
            assumed,
            steps,
            ..
        } => add_block(steps.as_slice(), labels, *label, *assumed),
        Step::Let {
            label,
            assumed,
            steps,
            ..
        } => add_block(steps.as_slice(), labels, *label, *assumed),
    }
}

/// Adds the labels of a block.
#[cycle(labels)]
fn add_block(
    steps: &[Step],
    labels: &mut Items<Label>,
    label: Label,
    assumed: Label,
) -> Result<(), NoMemory>
    ensures { OnOk result (labels.new ≡ labels.old ++ (label ∷ assumed ∷ rule.labels_of (steps_of (map step_tree steps.now)))) }
{
    labels.push(label)?;
    labels.push(assumed)?;
    add_labels(steps, labels)
}

/// Adds the labels of some steps.
#[cycle(labels)]
#[tactic(auto, using(step_judging::proofs::Sizes::size_lines))]
pub fn add_labels(steps: &[Step], labels: &mut Items<Label>) -> Result<(), NoMemory>
    ensures { OnOk result (labels.new ≡ labels.old ++ rule.labels_of (steps_of (map step_tree steps.now))) }
{
    for step in steps {
        add_labels_of(step, labels)?;
    }
    Ok(())
}
