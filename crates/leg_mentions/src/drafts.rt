ghost use Rattle.std.specs.Prelude.{◌≡◌, map};
ghost use Rattle.std.specs.List.{list_any};
ghost use Rattle.lk_claims.specs.Step.{step_tree, step_trees};
ghost use Rattle.program_trees.specs.Claims.{renamed_step, renamed_steps};
ghost use Rattle.leg_rules.specs.LegNames.{same_name};
ghost use Rattle.leg_rules.specs.Mentions.{item_mentions, leg_mentions, step_mentions as step_mentions_of, steps_mention as steps_mention_of};
ghost use Rattle.leg_items.specs.Names.{frame_name, leg_name};
ghost use Rattle.leg_items.specs.Drafts.{draft_item, items_of};

use crate::claims::mentions;
use leg_items::{Draft, DraftItem, Frame, Name};
use lk_claims::ProofStep;

/// Whether the step of a proof names the variable.
#[cycle(steps)]
#[tactic(auto, using(lk_claims::proofs::Steps::step_lines))]
fn step_mentions(step: &ProofStep, frame: Frame, name: Name) -> bool
    ensures { result ≡ step_mentions_of (same_name (leg_name name)) (renamed_step (frame_name frame) (step_tree step.now)) }
{
    match step {
        ProofStep::Line { claim, .. } => mentions(claim, frame, name),
        ProofStep::Sub {
            assumption,
            steps,
            ..
        } => mentions(assumption, frame, name) || steps_mention(steps.as_slice(), frame, name),
    }
}

/// Whether one of the steps of a proof names the variable.
#[cycle(steps)]
pub fn steps_mention(steps: &[ProofStep], frame: Frame, name: Name) -> bool
    ensures { result ≡ steps_mention_of (same_name (leg_name name)) (renamed_steps (frame_name frame) (step_trees steps.now)) }
{
    for step in steps {
        if step_mentions(step, frame, name) {
            return true;
        }
    }
    false
}

/// Whether one of the variables is this.
pub fn is_among(names: &[Name], name: Name) -> bool
    ensures { result ≡ list_any (same_name (leg_name name)) (map leg_name names.now) }
{
    for other in names {
        if name.same(*other) {
            return true;
        }
    }
    false
}

/// Whether the item names the variable.
pub fn draft_mentions(draft: &Draft, name: Name) -> bool
    ensures { result ≡ item_mentions (same_name (leg_name name)) (draft_item draft.now) }
{
    match draft {
        Draft::Assume(frame, claim) => mentions(claim, *frame, name),
        Draft::Check(_, frame, claim) => mentions(claim, *frame, name),
        Draft::Set(target, frame, claim) => name.same(*target) || mentions(claim, *frame, name),
        Draft::SetToVariable(target, source) => name.same(*target) || name.same(*source),
        Draft::Fresh(names) => is_among(names.as_slice(), name),
        Draft::Proof(frame, steps) => steps_mention(steps.as_slice(), *frame, name),
    }
}

/// Whether one of the items names the variable.
pub fn drafts_mention(drafts: &[DraftItem], name: Name) -> bool
    ensures { result ≡ leg_mentions (same_name (leg_name name)) (items_of drafts.now) }
{
    for item in drafts {
        if draft_mentions(&item.draft, name) {
            return true;
        }
    }
    false
}
