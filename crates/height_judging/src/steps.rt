ghost use Rattle.std.specs.Prelude.{◌≡◌, map};
ghost use Rattle.slang_tree.specs.StmtTree.{step_tree, steps_of};
ghost use Rattle.type_faults.specs.FirstFault.{with_first};
ghost use Rattle.height_rules.specs.Faults as rule;
ghost use Rattle.height_judging.specs.Inner.{inner_too_high};

use crate::expressions::expression_height;
use crate::limits::too_high;
use crate::places::step_place;
use slang_tree::{Expr, Step};
use type_faults::FirstFault;

/// Tells of steps that no more blocks may stand around.
fn too_deep(told: &mut FirstFault, steps: &[Step])
    ensures { told.new.found ≡ with_first told.old.found (rule.too_deep (steps_of (map step_tree steps.now))) }
{
    for step in steps {
        told.tell(too_high(step_place(step)));
    }
}

/// Tells what is too high in a step, where so many blocks may stand around what is inside.
#[cycle(steps)]
#[tactic(auto, using(slang_tree::proofs::Lines::step_lines))]
fn step_heights_at(told: &mut FirstFault, step: &Step, depth: u32)
    ensures { told.new.found ≡ with_first told.old.found (rule.step_too_high depth (step_tree step.now)) }
{
    match step {
        Step::Line { claim, .. } => expression_height(told, claim),
        Step::Sub {
            assumption,
            steps,
            ..
        } => {
            expression_height(told, assumption);
            inner_heights(told, steps.as_slice(), depth);
        }
        Step::Let {
            assumption,
            steps,
            ..
        } => {
            expression_height(told, assumption);
            inner_heights(told, steps.as_slice(), depth);
        }
    }
}

/// Tells what is too high in the steps of a block.
#[cycle(steps)]
fn inner_heights(told: &mut FirstFault, steps: &[Step], depth: u32)
    ensures { told.new.found ≡ with_first told.old.found (inner_too_high depth (steps_of (map step_tree steps.now))) }
{
    if depth == 0 {
        too_deep(told, steps);
    } else {
        step_heights(told, steps, depth - 1);
    }
}

/// Tells what is too high in some steps, around which so many blocks may stand.
#[cycle(steps)]
pub fn step_heights(told: &mut FirstFault, steps: &[Step], depth: u32)
    ensures { told.new.found ≡ with_first told.old.found (rule.steps_too_high depth (steps_of (map step_tree steps.now))) }
{
    for step in steps {
        step_heights_at(told, step, depth);
    }
}
