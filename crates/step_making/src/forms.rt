ghost use Rattle.std.specs.Prelude.{◌≡◌, IfOk};
ghost use Rattle.program_trees.specs.Claims as plain;
ghost use Rattle.lk_claims.specs.Claim.{claim_tree};
ghost use Rattle.lk_claims.specs.Step.{step_tree, step_trees};
ghost use Rattle.typed_texts.specs.Claims as typed;
ghost use Rattle.claim_making.specs.Parts.{FromTwo};

use crate::NoMemory;
use lk_claims::{Claim, ProofStep};
use owned_results::both;
use slang_tree::{Label, Name, rule_named};
use sqlite_items::Items;
use std::alloc::Global;

/// The number of the rule that is named, or 0 where there is none.
pub fn rule_number(rule: &Name) -> u8
    ensures { result ≡ typed.rule_number rule.now }
{
    match rule_named(rule.text.as_str()) {
        None => 0,
        Some(known) => known.number,
    }
}

/// The numbers of labels.
pub fn label_numbers(alloc: Global, labels: &[Label]) -> Result<Items<u32>, NoMemory>
    ensures { IfOk result (λ numbers. numbers ≡ typed.label_numbers labels.now) }
{
    let mut numbers = Items::new(alloc);
    for label in labels {
        numbers.push(label.number)?;
    }
    Ok(numbers)
}

/// A claim by a rule, from the steps of these labels.
#[tactic(auto, using(lk_claims::proofs::Steps::step_lines))]
pub fn line(
    label: Label,
    rule: u8,
    claim: Result<Claim, NoMemory>,
    cites: Result<Items<u32>, NoMemory>,
) -> Result<ProofStep, NoMemory>
    ensures { IfOk result (FromTwo claim cites (λ c ns step. step_tree step ≡ plain.line label.number (claim_tree c) rule ns)) }
{
    let (claim, cites) = both(claim, cites)?;
    Ok(ProofStep::Line {
        label: label.number,
        claim,
        rule,
        cites,
    })
}

/// A block under an assumption.
#[tactic(auto, using(lk_claims::proofs::Steps::step_lines))]
pub fn block(
    label: Label,
    bind: bool,
    assumed: Label,
    assumption: Result<Claim, NoMemory>,
    steps: Result<Items<ProofStep>, NoMemory>,
) -> Result<ProofStep, NoMemory>
    ensures { IfOk result (FromTwo assumption steps (λ c ss step. step_tree step ≡ plain.block label.number bind assumed.number (claim_tree c) (step_trees ss))) }
{
    let (assumption, steps) = both(assumption, steps)?;
    Ok(ProofStep::Sub {
        label: label.number,
        bind,
        assumed: assumed.number,
        assumption,
        steps,
    })
}
