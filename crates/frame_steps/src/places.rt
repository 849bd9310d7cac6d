ghost use Rattle.std.specs.Prelude.{◌≡◌, ℕ};
ghost use Rattle.program_trees.specs.Programs.{ProgramTree, claim_of};
ghost use Rattle.program_trees.specs.Variables.{Variable};
ghost use Rattle.run_rules.specs.Values.{is_true};
ghost use Rattle.run_stops.specs.ExpressionStops.{stopping};
ghost use Rattle.expression_values.specs.Environment.{values_in};
ghost use Rattle.claim_tests.specs.Tested.{noted_in};
ghost use Rattle.stopped_runs.specs.Runs.{on_stop};
ghost use Rattle.code_paths.specs.declared.inside.Inside.{Inside as PlainInside};
ghost use Rattle.run_frames.specs.Frames.{loop_at};
ghost use Rattle.run_steps.specs.Ends.{Gives};
ghost use Rattle.run_steps.specs.Steps.{program_of, IsOf};
ghost use Rattle.frame_steps.specs.Places.{IsThere, CanCallThere};
ghost use Rattle.std.specs.Prelude.{List};

use crate::frame::Run;
use code_paths::Inside;
use code_places::{block_at, statement_at};
use expression_values::Env;
use lk_programs::{Code, Noted, Typed};
use run_steps::{RunEnd, invariants_of, loop_holds, method_at};
use std::alloc::Global;

/// The statement of that number in the block at the end of the path, where there is one.
pub fn code_at<'p>(typed: &'p Typed, run: &Run, path: &[Inside], number: u32) -> Option<&'p Code>
    requires { IsOf (program_of typed.now) run.now.method run.now.env }
    ensures there { IsThere (program_of typed.now) run.now.method run.now.env path.now number result }
    ensures calls { CanCallThere (program_of typed.now) run.now.env result }
{
    let method = method_at(typed, run.method);
    statement_at(block_at(method.body.as_slice(), path), number)
}

/// The invariants of the loop that stands there; of what is no loop, none.
pub fn invariants_at<'p>(code: Option<&'p Code>, env: &Env) -> &'p [Noted]
    ensures { (program : ProgramTree Variable) (method : ℕ) (path : List PlainInside) (n : ℕ) → IsThere program method env.now path n code.entry
        → noted_in env.now result.now ≡ (loop_at program method path n).invariants }
{
    match code {
        None => &[],
        Some(code) => invariants_of(code, env),
    }
}

/// The truth value of the test of the loop that stands there, or why the run stops; of what is no loop, F.
pub fn holds_at(alloc: Global, code: Option<&Code>, env: &Env) -> Result<bool, RunEnd>
    ensures { (program : ProgramTree Variable) (method : ℕ) (path : List PlainInside) (n : ℕ) → IsThere program method env.now path n code.entry
        → Gives (λ b. b ≡ is_true program.records (values_in env.now) (claim_of (loop_at program method path n).test))
        (on_stop (stopping program.records (values_in env.now) (loop_at program method path n).test)) result }
{
    match code {
        None => Ok(false),
        Some(code) => loop_holds(alloc, code, env),
    }
}
