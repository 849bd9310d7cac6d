ghost use Rattle.std.specs.Prelude.{◌≡◌, suc, [], length, IfOk};
ghost use Rattle.expression_values.specs.Environment.{values_in};
ghost use Rattle.program_trees.specs.declared.answer.Kind.TheVariants as kinds;
ghost use Rattle.run_rules.specs.Runs.{method_at};
ghost use Rattle.stopped_runs.specs.Runs.{tested as plain_tested};
ghost use Rattle.run_steps.specs.Ends.{Gives, Holds};
ghost use Rattle.run_steps.specs.Steps.{program_of, IsOf};
ghost use Rattle.frame_steps.specs.Runs.{run_on, Fits};
ghost use Rattle.frame_steps.specs.Turns.{Turned, TurnedBy, Falls, work};
ghost use Rattle.frame_steps.specs.declared.frame.Frame.TheVariants as f;

use crate::frame::{Frame, Run, Turn};
use expression_values::Env;
use lk_programs::{Kind, Typed};
use run_entering::returned;
use run_steps::{RunEnd, method_at, tested};
use std::alloc::Global;
use std::mem::replace;

/// A called method ends, and its caller goes on.
pub fn back(
    alloc: Global,
    typed: &Typed,
    run: &mut Run,
    number: u32,
    caller: Env,
    target: Option<u32>,
    left: u64,
    limit: u64,
) -> Result<Turn, RunEnd>
    requires fits { Fits (program_of typed.now) run.old }
    requires caller_fits { IsOf (program_of typed.now) number caller }
    ensures turned { TurnedBy limit (program_of typed.now) (f.Back number caller target) run.old run.new left left result }
    ensures fits { IfOk result (λ t. Fits (program_of typed.now) run.new) }
    ensures falls { Falls (work left (suc (length run.old.frames))) left run.new result }
{
    match ensures_hold(alloc, typed, run, limit) {
        Err(end) => Err(end),
        Ok(()) => {
            let callee = replace(&mut run.env, caller);
            returned(&mut run.env, target, callee);
            run.method = number;
            Ok(Turn::GoesOn)
        }
    }
}

/// The method ends that the run began with.
pub fn last(alloc: Global, typed: &Typed, run: &Run, left: u64, limit: u64) -> Result<Turn, RunEnd>
    requires fits { Fits (program_of typed.now) run.now }
    requires none { run.now.frames ≡ [] }
    ensures turned { Turned limit (program_of typed.now) run.now (run_on limit (program_of typed.now) run.now) left left result }
    ensures falls { Falls 0 left run.now result }
{
    match ensures_hold(alloc, typed, run, limit) {
        Err(end) => Err(end),
        Ok(()) => Ok(Turn::Ended),
    }
}

/// The run goes on where the Ensures of its method hold.
fn ensures_hold(alloc: Global, typed: &Typed, run: &Run, limit: u64) -> Result<(), RunEnd>
    requires { IsOf (program_of typed.now) run.now.method run.now.env }
    ensures { Gives Holds (plain_tested limit (program_of typed.now) kinds.Ensures (method_at (program_of typed.now) run.now.method).ensures_
        (values_in run.now.env)) result }
{
    let method = method_at(typed, run.method);
    tested(
        alloc,
        typed.records.as_slice(),
        method.ensures_.as_slice(),
        &run.env,
        limit,
        Kind::Ensures,
    )
}
