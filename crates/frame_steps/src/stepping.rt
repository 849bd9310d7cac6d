ghost use Rattle.std.specs.Prelude.{suc, length, IfOk};
ghost use Rattle.run_steps.specs.Steps.{program_of};
ghost use Rattle.frame_steps.specs.Runs.{run_on, FrameFits, Fits};
ghost use Rattle.frame_steps.specs.Turns.{Turned, TurnedBy, Falls, work};

use crate::frame::{Frame, Run, Turn};
use crate::looping::{again, at_test};
use crate::returning::{back, last};
use crate::starting::block;
use lk_programs::Typed;
use run_steps::RunEnd;
use std::alloc::Global;

/// One step of the run. `left` is what is left of the turns.
pub fn step(
    alloc: Global,
    typed: &Typed,
    run: &mut Run,
    left: &mut u64,
    limit: u64,
) -> Result<Turn, RunEnd>
    requires { Fits (program_of typed.now) run.old }
    ensures turned { Turned limit (program_of typed.now) run.new (run_on limit (program_of typed.now) run.old) left.old left.new result }
    ensures fits { IfOk result (λ t. Fits (program_of typed.now) run.new) }
    ensures falls { Falls (work left.old (length run.old.frames)) left.new run.new result }
{
    match run.frames.pop() {
        None => last(alloc, typed, run, *left, limit),
        Some(frame) => taken(alloc, typed, run, frame, left, limit),
    }
}

/// The step of a frame that was taken from the others.
fn taken(
    alloc: Global,
    typed: &Typed,
    run: &mut Run,
    frame: Frame,
    left: &mut u64,
    limit: u64,
) -> Result<Turn, RunEnd>
    requires fits { Fits (program_of typed.now) run.old }
    requires frame_fits { FrameFits (program_of typed.now) frame }
    ensures turned { TurnedBy limit (program_of typed.now) frame run.old run.new left.old left.new result }
    ensures fits { IfOk result (λ t. Fits (program_of typed.now) run.new) }
    ensures falls { Falls (work left.old (suc (length run.old.frames))) left.new run.new result }
{
    match frame {
        Frame::Block { path, next } => block(alloc, typed, run, path, next, left, limit),
        Frame::Again {
            first,
            path,
            statement,
        } => again(alloc, typed, run, first, path, statement, left, limit),
        Frame::AtTest { path, statement } => {
            at_test(alloc, typed, run, path, statement, left, limit)
        }
        Frame::Back {
            method,
            caller,
            target,
        } => back(alloc, typed, run, method, caller, target, *left, limit),
    }
}
