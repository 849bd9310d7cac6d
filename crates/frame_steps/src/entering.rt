ghost use Rattle.std.specs.Prelude.{◌≡◌, ℕ, suc, ◌+◌, ◌≤◌, [], ◌∷◌, ◌++◌, not, length, Some, IfOk, OnOk};
ghost use Rattle.program_trees.specs.Programs.{ProgramTree, CodeTree};
ghost use Rattle.program_trees.specs.Variables.{Variable};
ghost use Rattle.code_paths.specs.Places.{nth_statement};
ghost use Rattle.run_frames.specs.Frames.{block_of, stack_of, block};
ghost use Rattle.run_frames.specs.Laws.{step_to};
ghost use Rattle.expression_values.specs.Environment.{values_in};
ghost use Rattle.stopped_runs.specs.Runs.{Continuation};
ghost use Rattle.run_steps.specs.Steps.{comes, BeginsOf};
ghost use Rattle.frame_steps.specs.Runs.{frames_of, stack_in, pushed, begun, Fits};
ghost use Rattle.frame_steps.specs.declared.frame.Frame.TheVariants as f;

use crate::NoMemory;
use crate::frame::{Frame, Run};
use code_paths::Inside;
use expression_values::Env;
use run_steps::Next;
use sqlite_items::Items;
use std::alloc::{AllocError, Global};
use std::mem::replace;

/// Puts what comes next, and what is behind the statement, onto the frames.
pub fn enter(
    alloc: Global,
    run: &mut Run,
    path: Items<Inside>,
    statement: u32,
    next: Next,
) -> Result<(), NoMemory>
    ensures entered { OnOk result ((program : ProgramTree Variable) (code : CodeTree Variable) (more : Continuation)
        → nth_statement (block_of program run.old.method path) statement ≡ Some code
        → comes program code run.old.env more (stack_of program run.old.method (block path (suc statement) ∷ frames_of run.old.frames)) next
        ≡ more (stack_in program run.new) (values_in run.new.env)) }
    ensures fits { OnOk result ((program : ProgramTree Variable) → Fits program run.old → BeginsOf program next → Fits program run.new) }
    ensures few { OnOk result (length run.new.frames ≤ 3 + length run.old.frames) }
{
    match statement.checked_add(1) {
        None => Err(AllocError),
        Some(behind) => match next {
            Next::Rest => push(run, Frame::Block { path, next: behind }),
            Next::Part(holds) => match path_inside(alloc, path.as_slice(), statement, !holds) {
                Err(_) => Err(AllocError),
                Ok(inner) => push_both(
                    run,
                    Frame::Block { path, next: behind },
                    Frame::Block {
                        path: inner,
                        next: 0,
                    },
                ),
            },
            Next::Loop => match Items::from_slice(alloc, path.as_slice()) {
                Err(_) => Err(AllocError),
                Ok(copy) => push_both(
                    run,
                    Frame::Block { path, next: behind },
                    Frame::Again {
                        first: true,
                        path: copy,
                        statement,
                    },
                ),
            },
            Next::Method(number, target, callee) => {
                let block = Frame::Block { path, next: behind };
                enter_method(alloc, run, block, number, target, callee)
            }
        },
    }
}

/// The method of that number begins, and the frame and its end are behind it.
fn enter_method(
    alloc: Global,
    run: &mut Run,
    frame: Frame,
    number: u32,
    target: Option<u32>,
    callee: Env,
) -> Result<(), NoMemory>
    ensures { OnOk result (run.new ≡ pushed (pushed (pushed (begun run.old number callee) frame) (f.Back run.old.method run.old.env target)) (f.Block [] 0)) }
{
    let caller = replace(&mut run.env, callee);
    let method = run.method;
    run.method = number;
    match push(run, frame) {
        Err(end) => Err(end),
        Ok(()) => push_both(
            run,
            Frame::Back {
                method,
                caller,
                target,
            },
            Frame::Block {
                path: Items::new(alloc),
                next: 0,
            },
        ),
    }
}

/// One more frame.
pub fn push(run: &mut Run, frame: Frame) -> Result<(), NoMemory>
    ensures { OnOk result (run.new ≡ pushed run.old frame) }
{
    match run.frames.push(frame) {
        Err(_) => Err(AllocError),
        Ok(()) => Ok(()),
    }
}

/// Two more frames, of which the second comes next.
pub fn push_both(run: &mut Run, behind: Frame, next: Frame) -> Result<(), NoMemory>
    ensures { OnOk result (run.new ≡ pushed (pushed run.old behind) next) }
{
    match push(run, behind) {
        Err(end) => Err(end),
        Ok(()) => push(run, next),
    }
}

/// The path with one more step.
pub fn path_inside(
    alloc: Global,
    path: &[Inside],
    statement: u32,
    otherwise: bool,
) -> Result<Items<Inside>, NoMemory>
    ensures { IfOk result (λ inner. inner ≡ path.now ++ step_to statement otherwise ∷ []) }
{
    let mut inner = Items::from_slice(alloc, path)?;
    match inner.push(Inside {
        statement,
        otherwise,
    }) {
        Err(end) => Err(end),
        Ok(()) => Ok(inner),
    }
}
