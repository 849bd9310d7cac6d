ghost use Rattle.std.specs.Prelude.{◌≡◌};
ghost use Rattle.program_trees.specs.Programs.{ProgramTree, claim_of};
ghost use Rattle.program_trees.specs.Variables.{Variable};
ghost use Rattle.run_rules.specs.Values.{is_true};
ghost use Rattle.run_stops.specs.ExpressionStops.{stopping};
ghost use Rattle.expression_values.specs.Environment.{values_in};
ghost use Rattle.claim_tests.specs.Tested.{noted_in};
ghost use Rattle.stopped_runs.specs.Runs.{on_stop};
ghost use Rattle.run_frames.specs.Frames.{loop_of};
ghost use Rattle.run_steps.specs.Ends.{Gives};
ghost use Rattle.run_steps.specs.Steps.{code_in};

use crate::ending::RunEnd;
use crate::evaluating::truth_of;
use expression_values::Env;
use lk_programs::{Code, Noted};
use std::alloc::Global;

/// The truth value of the test of a loop, or why the run stops.
#[tactic(auto, using(lk_programs::proofs::Codes::code_lines))]
pub fn loop_holds(alloc: Global, code: &Code, env: &Env) -> Result<bool, RunEnd>
    ensures { (program : ProgramTree Variable) → Gives (λ b. b ≡ is_true program.records (values_in env.now) (claim_of (loop_of
        (code_in env.now code.now)).test))
        (on_stop (stopping program.records (values_in env.now) (loop_of (code_in env.now code.now)).test)) result }
{
    match code {
        Code::While { test, .. } => truth_of(alloc, test, env),
        Code::Val { .. }
        | Code::Assign { .. }
        | Code::Call { .. }
        | Code::If { .. }
        | Code::Assert(_)
        | Code::Deduce { .. }
        | Code::Return { .. } => Ok(false),
    }
}

/// The invariants of a loop.
#[tactic(auto, using(lk_programs::proofs::Codes::code_lines))]
pub fn invariants_of<'p>(code: &'p Code, env: &Env) -> &'p [Noted]
    ensures { noted_in env.now result.now ≡ (loop_of (code_in env.now code.now)).invariants }
{
    match code {
        Code::While { invariants, .. } => invariants.as_slice(),
        Code::Val { .. }
        | Code::Assign { .. }
        | Code::Call { .. }
        | Code::If { .. }
        | Code::Assert(_)
        | Code::Deduce { .. }
        | Code::Return { .. } => &[],
    }
}
