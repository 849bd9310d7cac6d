ghost use Rattle.std.specs.Prelude.{◌≡◌, OnOk, map};
ghost use Rattle.slang_tree.specs.ExprTree.{expr_tree};
ghost use Rattle.slang_tree.specs.declared.statement.Label.{Label};
ghost use Rattle.slang_tree.specs.StmtTree.{let_block, step_tree, steps_of};
ghost use Rattle.type_rules.specs.Meanings.{Scope};
ghost use Rattle.type_rules.specs.Steps as rule;
ghost use Rattle.type_faults.specs.FirstFault.{with_first};
ghost use Rattle.name_scopes.specs.Fits.{Fits};

use crate::NoMemory;
use crate::rules::cited_by;
use claim_judging::{claim, new_name};
use expression_forms::Context;
use name_scopes::NameScope;
use slang_tree::{Expr, Label, Name, Step};
use std::alloc::Global;
use type_faults::FirstFault;

/// Tells what is wrong with a step.
#[cycle(steps)]
#[tactic(auto, using(slang_tree::proofs::Lines::step_lines, crate::proofs::Sizes::smaller_lines))]
fn judged_step(
    step: &Step,
    alloc: Global,
    scope: &mut NameScope,
    told: &mut FirstFault,
) -> Result<(), NoMemory>
    ensures told { OnOk result ((at : Scope) → Fits scope.old at → told.new.found ≡ with_first told.old.found (rule.step_faults at (step_tree step.now))) }
    ensures scope { OnOk result (scope.new ≡ scope.old) }
{
    match step {
        Step::Line {
            claim: shown,
            rule,
            cites,
            ..
        } => {
            claim(shown, alloc, scope, told, Context::Proof)?;
            cited_by(told, rule, cites.as_slice());
            Ok(())
        }
        Step::Sub {
            assumption,
            steps,
            ..
        } => {
            claim(assumption, alloc, scope, told, Context::Proof)?;
            judged_steps(steps.as_slice(), alloc, scope, told)
        }
        Step::Let {
            label,
            name,
            assumption,
            steps,
            ..
        } => judged_block(
            steps.as_slice(),
            alloc,
            scope,
            told,
            *label,
            name,
            assumption,
        ),
    }
}

/// Tells what is wrong with a block that stands for each number, which a name stands for.
#[cycle(steps)]
fn judged_block(
    steps: &[Step],
    alloc: Global,
    scope: &mut NameScope,
    told: &mut FirstFault,
    label: Label,
    name: &Name,
    assumption: &Expr,
) -> Result<(), NoMemory>
    ensures told { OnOk result ((at : Scope) → Fits scope.old at → (assumed : Label) → told.new.found ≡ with_first told.old.found
        (rule.step_faults at (let_block label name.now assumed (expr_tree assumption.now) (steps_of (map step_tree steps.now))))) }
    ensures scope { OnOk result (scope.new ≡ scope.old) }
{
    let names = scope.names.len();
    new_name(scope, told, name);
    scope.open_block(alloc, name.text.as_str(), label.number)?;
    claim(assumption, alloc, scope, told, Context::Proof)?;
    judged_steps(steps, alloc, scope, told)?;
    scope.close_block(names);
    Ok(())
}

/// Tells what is wrong with some steps.
#[cycle(steps)]
#[tactic(auto, using(crate::proofs::Sizes::size_lines))]
pub fn judged_steps(
    steps: &[Step],
    alloc: Global,
    scope: &mut NameScope,
    told: &mut FirstFault,
) -> Result<(), NoMemory>
    ensures told { OnOk result ((at : Scope) → Fits scope.old at
        → told.new.found ≡ with_first told.old.found (rule.steps_faults at (steps_of (map step_tree steps.now)))) }
    ensures scope { OnOk result (scope.new ≡ scope.old) }
{
    for step in steps {
        judged_step(step, alloc, scope, told)?;
    }
    Ok(())
}
