ghost use Rattle.std.specs.Prelude.{◌≡◌, ◌++◌, OnOk};
ghost use Rattle.program_trees.specs.Claims.{line, block};
ghost use Rattle.key_rules.specs.Fits.{FitsList, FitsNumber, FitsStep};
ghost use Rattle.key_rules.specs.Writing.{list_bytes};
ghost use Rattle.lk_claims.specs.Claim.{claim_tree};
ghost use Rattle.lk_claims.specs.Step.{step_tree, step_trees};
ghost use Rattle.leg_key.specs.Parts.{step_key, line_key, block_key, block_head_key};

use crate::bytes::{add_byte, add_length, add_number, add_numbers};
use crate::claims::add_claim;
use crate::{NoMemory, codes};
use lk_claims::{Claim, ProofStep};

/// Adds a step of a proof at the end of a key.
#[cycle(steps)]
#[tactic(auto, using(crate::proofs::Sizes::size_lines, lk_claims::proofs::Steps::step_lines))]
fn add_step(step: &ProofStep, key: &mut Vec<u8>) -> Result<(), NoMemory>
    ensures written { OnOk result (key.new.items ≡ key.old.items ++ step_key step.now) }
    ensures fits { OnOk result (FitsStep (step_tree step.now)) }
{
    match step {
        ProofStep::Line {
            label,
            claim,
            rule,
            cites,
        } => add_line(*label, claim, *rule, cites.as_slice(), key),
        ProofStep::Sub {
            label,
            bind,
            assumed,
            assumption,
            steps,
        } => add_block(*label, *bind, *assumed, assumption, steps.as_slice(), key),
    }
}

fn add_line(
    label: u32,
    claim: &Claim,
    rule: u8,
    cites: &[u32],
    key: &mut Vec<u8>,
) -> Result<(), NoMemory>
    ensures written { OnOk result (key.new.items ≡ key.old.items ++ line_key label claim.now rule cites.now) }
    ensures fits { OnOk result (FitsStep (line label (claim_tree claim.now) rule cites.now)) }
{
    add_byte(codes::LINE, key)?;
    add_number(label, key)?;
    add_claim(claim, key)?;
    add_byte(rule, key)?;
    add_numbers(cites, key)
}

fn add_block_head(label: u32, bind: bool, assumed: u32, key: &mut Vec<u8>) -> Result<(), NoMemory>
    ensures written { OnOk result (key.new.items ≡ key.old.items ++ block_head_key label bind assumed) }
    ensures fits { OnOk result (FitsNumber label × FitsNumber assumed) }
{
    add_byte(codes::BLOCK, key)?;
    add_number(label, key)?;
    add_byte(codes::flag(bind), key)?;
    add_number(assumed, key)
}

#[cycle(steps)]
fn add_block(
    label: u32,
    bind: bool,
    assumed: u32,
    claim: &Claim,
    steps: &[ProofStep],
    key: &mut Vec<u8>,
) -> Result<(), NoMemory>
    ensures written { OnOk result (key.new.items ≡ key.old.items ++ block_key label bind assumed claim.now steps.now) }
    ensures fits { OnOk result (FitsStep (block label bind assumed (claim_tree claim.now) (step_trees steps.now))) }
{
    add_block_head(label, bind, assumed, key)?;
    add_claim(claim, key)?;
    add_steps(steps, key)
}

/// Adds a list of steps at the end of a key.
#[cycle(steps)]
#[tactic(auto, using(crate::proofs::Sizes::size_lines))]
pub fn add_steps(steps: &[ProofStep], key: &mut Vec<u8>) -> Result<(), NoMemory>
    ensures written { OnOk result (key.new.items ≡ key.old.items ++ list_bytes step_key steps.now) }
    ensures fits { OnOk result (FitsList (λ step. FitsStep (step_tree step)) steps.now) }
{
    add_length(steps.len(), key)?;
    for step in steps {
        add_step(step, key)?;
    }
    Ok(())
}
