ghost use Rattle.std.specs.Prelude.{◌≡◌};
ghost use Rattle.term_trees.specs.Term.{tree};
ghost use Rattle.rule_check.specs.Cited.{shown_tree};
ghost use Rattle.deduction_rules.specs.Step as rule;
ghost use Rattle.deduction.specs.Steps.{step_tree, step_trees};

use lk_terms::{StepTerm, Term};

/// What a block with that assumption shows: the claim of its last step, and without steps its assumption. A block that
/// ends with a block shows nothing.
pub fn conclusion<'a>(given: &'a Term, steps: &'a [StepTerm]) -> Option<&'a Term>
    ensures { shown_tree result ≡ rule.conclusion (tree given.now) (step_trees steps.now) }
{
    match steps.last() {
        None => Some(given),
        Some(step) => claim_of(step),
    }
}

#[tactic(auto, using(crate::proofs::Steps::step_lines))]
fn claim_of(step: &StepTerm) -> Option<&Term>
    ensures { shown_tree result ≡ rule.claim_of (step_tree step.now) }
{
    match step {
        StepTerm::Line { claim, .. } => Some(claim),
        StepTerm::Sub { .. } => None,
    }
}
