ghost use Rattle.std.specs.Prelude.{IfOk, OnOk, ◌≡◌, map};
ghost use Rattle.slang_tree.specs.ExprTree.{expr_tree};
ghost use Rattle.slang_tree.specs.StmtTree.{let_block, step_tree, steps_of};
ghost use Rattle.typed_texts.specs.Claims.{step_of_tree};
ghost use Rattle.step_making.specs.Made.{AreSteps, IsStep};

use crate::NoMemory;
use crate::forms::{block, label_numbers, line, rule_number};
use claim_making::made_claim;
use expression_forms::Context;
use lk_claims::ProofStep;
use lk_programs::RecordTy;
use name_scopes::NameScope;
use slang_tree::{Expr, Label, Name, Step};
use sqlite_items::Items;
use std::alloc::Global;
use typed_names::Numbering;

/// The step of the program that a step stands for.
#[cycle(steps)]
#[tactic(auto, using(slang_tree::proofs::Lines::step_lines, step_judging::proofs::Sizes::smaller_lines))]
fn made_step(
    step: &Step,
    alloc: Global,
    scope: &mut NameScope,
    records: &[RecordTy],
    numbers: Numbering,
) -> Result<ProofStep, NoMemory>
    ensures step { IfOk result (IsStep records.now numbers scope.old (λ at. step_of_tree at (step_tree step.now))) }
    ensures scope { OnOk result (scope.new ≡ scope.old) }
{
    match step {
        Step::Line {
            label,
            claim,
            rule,
            cites,
        } => {
            let claim = made_claim(claim, alloc, scope, records, numbers, Context::Proof);
            let cites = label_numbers(alloc, cites.as_slice());
            line(*label, rule_number(rule), claim, cites)
        }
        Step::Sub {
            label,
            assumed,
            assumption,
            steps,
        } => {
            let assumption = made_claim(assumption, alloc, scope, records, numbers, Context::Proof);
            let steps = made_steps(steps.as_slice(), alloc, scope, records, numbers);
            block(*label, false, *assumed, assumption, steps)
        }
        Step::Let {
            label,
            name,
            assumed,
            assumption,
            steps,
        } => made_block(
            steps.as_slice(),
            alloc,
            scope,
            records,
            numbers,
            *label,
            name,
            *assumed,
            assumption,
        ),
    }
}

/// The block with a symbol, which a name stands for.
#[cycle(steps)]
fn made_block(
    steps: &[Step],
    alloc: Global,
    scope: &mut NameScope,
    records: &[RecordTy],
    numbers: Numbering,
    label: Label,
    name: &Name,
    assumed: Label,
    assumption: &Expr,
) -> Result<ProofStep, NoMemory>
    ensures step { IfOk result (IsStep records.now numbers scope.old
        (λ at. step_of_tree at (let_block label name.now assumed (expr_tree assumption.now) (steps_of (map step_tree steps.now))))) }
    ensures scope { OnOk result (scope.new ≡ scope.old) }
{
    let names = scope.names.len();
    scope.open_block(alloc, name.text.as_str(), label.number)?;
    let assumption = made_claim(assumption, alloc, scope, records, numbers, Context::Proof);
    let steps = made_steps(steps, alloc, scope, records, numbers);
    scope.close_block(names);
    block(label, true, assumed, assumption, steps)
}

/// The steps of the program that steps stand for.
#[cycle(steps)]
#[tactic(auto, using(step_judging::proofs::Sizes::size_lines))]
pub fn made_steps(
    steps: &[Step],
    alloc: Global,
    scope: &mut NameScope,
    records: &[RecordTy],
    numbers: Numbering,
) -> Result<Items<ProofStep>, NoMemory>
    ensures steps { IfOk result (AreSteps records.now numbers scope.old steps.now) }
    ensures scope { OnOk result (scope.new ≡ scope.old) }
{
    let mut made = Items::new(alloc);
    for step in steps {
        made.push(made_step(step, alloc, scope, records, numbers)?)?;
    }
    Ok(made)
}
