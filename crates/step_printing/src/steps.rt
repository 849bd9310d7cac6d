ghost use Rattle.std.specs.Prelude.{OnOk, map};
ghost use Rattle.slang_tree.specs.StmtTree.{step_tree, steps_of};
ghost use Rattle.print_statements.specs.Accounts.{step_account, steps_account};
ghost use Rattle.print_layout.specs.Statements.{step_pieces, steps_pieces};
ghost use Rattle.expression_printing.specs.Printed.{Adds};
ghost use Rattle.step_printing.specs.Printed.{block_pieces, steps_behind};

use crate::NoMemory;
use crate::lines::{add_assumption, add_label, add_let, add_line, deeper};
use slang_tree::{Expr, Label, Step};
use token_printing::{Gap, add_text, add_word};

/// Adds a step on lines of its own.
#[cycle(printing)]
#[tactic(auto, using(slang_tree::proofs::Lines::step_lines, crate::proofs::Sizes::smaller_lines))]
fn add_step(step: &Step, depth: u32, light: bool, text: &mut Vec<u8>) -> Result<(), NoMemory>
    ensures { OnOk result (Adds text.old.items text.new.items (step_pieces depth (step_account light (step_tree step.now)))) }
{
    match step {
        Step::Line {
            label,
            claim,
            rule,
            cites,
        } => add_line(*label, claim, rule, cites.as_slice(), depth, light, text),
        Step::Sub {
            label,
            assumed,
            assumption,
            steps,
        } => {
            add_label(*label, Gap::Line(depth), text)?;
            add_block(*assumed, assumption, steps.as_slice(), depth, light, text)
        }
        Step::Let {
            label,
            name,
            assumed,
            assumption,
            steps,
        } => {
            add_label(*label, Gap::Line(depth), text)?;
            add_let(name, text)?;
            add_block(*assumed, assumption, steps.as_slice(), depth, light, text)?;
            add_text(")", text)
        }
    }
}

/// Adds an assumption with the steps behind it.
#[cycle(printing)]
fn add_block(
    assumed: Label,
    assumption: &Expr,
    steps: &[Step],
    depth: u32,
    light: bool,
    text: &mut Vec<u8>,
) -> Result<(), NoMemory>
    ensures { OnOk result (Adds text.old.items text.new.items (block_pieces light depth assumed assumption.now steps.now)) }
{
    let inner = deeper(depth)?;
    add_assumption(assumed, assumption, inner, light, text)?;
    add_behind(steps, inner, light, text)?;
    add_word(Gap::Line(depth), ")", text)
}

/// Adds steps, each behind a comma.
#[cycle(printing)]
#[tactic(auto, using(crate::proofs::Sizes::size_lines))]
fn add_behind(steps: &[Step], depth: u32, light: bool, text: &mut Vec<u8>) -> Result<(), NoMemory>
    ensures { OnOk result (Adds text.old.items text.new.items (steps_behind light depth steps.now)) }
{
    for step in steps {
        add_text(",", text)?;
        add_step(step, depth, light, text)?;
    }
    Ok(())
}

/// Adds steps, parted by commas.
pub fn add_steps(
    steps: &[Step],
    depth: u32,
    light: bool,
    text: &mut Vec<u8>,
) -> Result<(), NoMemory>
    ensures { OnOk result (Adds text.old.items text.new.items (steps_pieces depth (steps_account light (steps_of (map step_tree steps.now))))) }
{
    match steps.split_first() {
        None => Ok(()),
        Some((step, others)) => {
            add_step(step, depth, light, text)?;
            add_behind(others, depth, light, text)
        }
    }
}
