ghost use Rattle.std.specs.Prelude.{◌≡◌, suc, ◌≤◌, ◌+◌, length, IfOk, OnOk};
ghost use Rattle.expression_values.specs.Environment.{values_in};
ghost use Rattle.run_rules.specs.Runs.{invariant_kind, beyond_test};
ghost use Rattle.run_frames.specs.Frames.{loop_at};
ghost use Rattle.stopped_runs.specs.Runs.{turns, test_loop};
ghost use Rattle.program_trees.specs.Programs.{ProgramTree, claim_of};
ghost use Rattle.program_trees.specs.Variables.{Variable};
ghost use Rattle.run_rules.specs.Values.{is_true};
ghost use Rattle.run_steps.specs.Steps.{program_of};
ghost use Rattle.frame_steps.specs.Runs.{stack_in, Fits};
ghost use Rattle.frame_steps.specs.Places.{IsThere};
ghost use Rattle.frame_steps.specs.Turns.{Turned, TurnedBy, Falls, work};
ghost use Rattle.frame_steps.specs.declared.frame.Frame.TheVariants as f;

use crate::NoMemory;
use crate::entering::{path_inside, push, push_both};
use crate::frame::{Frame, Run, Turn};
use crate::places::{code_at, holds_at, invariants_at};
use code_paths::Inside;
use lk_programs::{Code, Kind, Typed};
use run_steps::{RunEnd, tested};
use sqlite_items::Items;
use std::alloc::Global;

/// A loop tests its invariants, for the first time or again, and then its own test.
pub fn again(
    alloc: Global,
    typed: &Typed,
    run: &mut Run,
    first: bool,
    path: Items<Inside>,
    statement: u32,
    left: &mut u64,
    limit: u64,
) -> Result<Turn, RunEnd>
    requires { Fits (program_of typed.now) run.old }
    ensures turned { TurnedBy limit (program_of typed.now) (f.Again first path statement) run.old run.new left.old left.new result }
    ensures fits { IfOk result (λ t. Fits (program_of typed.now) run.new) }
    ensures falls { Falls (work left.old (suc (length run.old.frames))) left.new run.new result }
{
    let code = code_at(typed, run, path.as_slice(), statement);
    match tested(
        alloc,
        typed.records.as_slice(),
        invariants_at(code, &run.env),
        &run.env,
        limit,
        kind_of(first),
    ) {
        Err(end) => Err(end),
        Ok(()) => test_due(alloc, typed, code, run, path, statement, left, limit),
    }
}

/// A loop whose invariants were tested tests its own test.
pub fn at_test(
    alloc: Global,
    typed: &Typed,
    run: &mut Run,
    path: Items<Inside>,
    statement: u32,
    left: &mut u64,
    limit: u64,
) -> Result<Turn, RunEnd>
    requires { Fits (program_of typed.now) run.old }
    ensures turned { TurnedBy limit (program_of typed.now) (f.AtTest path statement) run.old run.new left.old left.new result }
    ensures fits { IfOk result (λ t. Fits (program_of typed.now) run.new) }
    ensures falls { Falls (work left.old (suc (length run.old.frames))) left.new run.new result }
{
    let code = code_at(typed, run, path.as_slice(), statement);
    test_due(alloc, typed, code, run, path, statement, left, limit)
}

/// The test of a loop takes a turn.
fn test_due(
    alloc: Global,
    typed: &Typed,
    code: Option<&Code>,
    run: &mut Run,
    path: Items<Inside>,
    statement: u32,
    left: &mut u64,
    limit: u64,
) -> Result<Turn, RunEnd>
    requires fits { Fits (program_of typed.now) run.old }
    requires there { IsThere (program_of typed.now) run.old.method run.old.env path statement code }
    ensures turned { Turned limit (program_of typed.now) run.new
        (λ n. test_loop limit (program_of typed.now) (turns limit (program_of typed.now) n) (loop_at (program_of typed.now) run.old.method path statement)
        (stack_in (program_of typed.now) run.old) (values_in run.old.env)) left.old left.new result }
    ensures fits { IfOk result (λ t. Fits (program_of typed.now) run.new) }
    ensures falls { Falls (work left.old (suc (length run.old.frames))) left.new run.new result }
{
    if *left == 0 {
        match push(run, Frame::AtTest { path, statement }) {
            Err(_) => Err(RunEnd::NoMemory),
            Ok(()) => Ok(Turn::Waits),
        }
    } else {
        *left -= 1;
        match holds_at(alloc, code, &run.env) {
            Err(end) => Err(end),
            Ok(holds) => match go_beyond(alloc, run, path, statement, holds) {
                Err(_) => Err(RunEnd::NoMemory),
                Ok(()) => Ok(Turn::GoesOn),
            },
        }
    }
}

/// Where the test of a loop is true its body comes next, and then the loop again.
fn go_beyond(
    alloc: Global,
    run: &mut Run,
    path: Items<Inside>,
    statement: u32,
    holds: bool,
) -> Result<(), NoMemory>
    ensures beyond { OnOk result ((program : ProgramTree Variable)
        → holds ≡ is_true program.records (values_in run.old.env) (claim_of (loop_at program run.old.method path statement).test)
        → beyond_test program (loop_at program run.old.method path statement) (stack_in program run.old) (values_in run.old.env)
        ≡ stack_in program run.new) }
    ensures kept { OnOk result ((run.new.method ≡ run.old.method) × (run.new.env ≡ run.old.env)) }
    ensures fits { OnOk result ((program : ProgramTree Variable) → Fits program run.old → Fits program run.new) }
    ensures few { OnOk result (length run.new.frames ≤ 2 + length run.old.frames) }
{
    if holds {
        match path_inside(alloc, path.as_slice(), statement, false) {
            Err(end) => Err(end),
            Ok(body) => push_both(
                run,
                Frame::Again {
                    first: false,
                    path,
                    statement,
                },
                Frame::Block {
                    path: body,
                    next: 0,
                },
            ),
        }
    } else {
        Ok(())
    }
}

/// What fails where an invariant is false.
fn kind_of(first: bool) -> Kind
    ensures { result ≡ invariant_kind first }
{
    if first { Kind::InvStart } else { Kind::InvKept }
}
