ghost use Rattle.std.specs.Prelude.{suc, length, IfOk};
ghost use Rattle.run_steps.specs.Steps.{program_of};
ghost use Rattle.frame_steps.specs.Runs.{Fits};
ghost use Rattle.frame_steps.specs.Turns.{TurnedBy, Falls, work};
ghost use Rattle.frame_steps.specs.declared.frame.Frame.TheVariants as f;

use crate::entering::{enter, push};
use crate::frame::{Frame, Run, Turn};
use crate::places::code_at;
use code_paths::Inside;
use lk_programs::{Code, Typed};
use run_steps::{RunEnd, begin};
use sqlite_items::Items;
use std::alloc::Global;

/// The next statement of a block begins, or the block ends.
pub fn block(
    alloc: Global,
    typed: &Typed,
    run: &mut Run,
    path: Items<Inside>,
    next: u32,
    left: &mut u64,
    limit: u64,
) -> Result<Turn, RunEnd>
    requires { Fits (program_of typed.now) run.old }
    ensures turned { TurnedBy limit (program_of typed.now) (f.Block path next) run.old run.new left.old left.new result }
    ensures fits { IfOk result (λ t. Fits (program_of typed.now) run.new) }
    ensures falls { Falls (work left.old (suc (length run.old.frames))) left.new run.new result }
{
    match code_at(typed, run, path.as_slice(), next) {
        None => Ok(Turn::GoesOn),
        Some(code) => {
            if *left == 0 {
                match push(run, Frame::Block { path, next }) {
                    Err(_) => Err(RunEnd::NoMemory),
                    Ok(()) => Ok(Turn::Waits),
                }
            } else {
                *left -= 1;
                match begin(alloc, typed, code, &mut run.env, limit) {
                    Err(end) => Err(end),
                    Ok(what) => match enter(alloc, run, path, next, what) {
                        Err(_) => Err(RunEnd::NoMemory),
                        Ok(()) => Ok(Turn::GoesOn),
                    },
                }
            }
        }
    }
}
