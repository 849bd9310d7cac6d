ghost use Rattle.std.specs.Prelude.{◌≡◌, ◌<◌, ℕ, [], ◌∷◌, length, map, IfOk};
ghost use Rattle.run_rules.specs.Runs.{method_at};
ghost use Rattle.run_stops.specs.ClaimStops.{visit_limit};
ghost use Rattle.run_values.specs.Value.{plain_value};
ghost use Rattle.expression_values.specs.Environment.{value_in};
ghost use Rattle.stopped_runs.specs.Runs.{run};
ghost use Rattle.run_steps.specs.Steps.{program_of};
ghost use Rattle.frame_steps.specs.declared.frame.Frame.TheVariants as f;
ghost use Rattle.interp.specs.Ends.{told_of};
ghost use Rattle.interp.specs.Machines.{run_of, IsMachineOf, value_of, IsKnown};
ghost use Rattle.interp.specs.Advances.{Advances};
ghost use Rattle.interp.specs.declared.turned.Turned.TheVariants as t;

use crate::NoMemory;
use crate::going::{VISIT_LIMIT, go_on};
use crate::turned::{Turned, told_of};
use expression_values::Env;
use frame_steps::{Frame, Run};
use lk_programs::Typed;
use run_steps::{RunEnd, begin_call, method_at};
use run_values::Value;
use sqlite_items::Items;
use std::alloc::{AllocError, Global};

/// A run of a method. It holds places in the code of a program, and not the program.
#[derive(Drop)]
pub struct Machine {
    run: Run,
    told: Turned,
}

impl Machine {
    /// The run of the method of that number from these arguments, where the globals have these values. No turn is taken yet.
    pub fn new(
        alloc: Global,
        typed: &Typed,
        method: u32,
        arguments: Items<Value>,
        globals: Items<Value>,
    ) -> Result<Machine, NoMemory>
        requires there { method < length (program_of typed.now).methods }
        requires as_many_arguments { length arguments ≡ length (method_at (program_of typed.now) method).params }
        requires as_many_globals { length globals ≡ length (program_of typed.now).globals }
        ensures begins { IfOk result (λ machine. (n : ℕ) → run_of (program_of typed.now) machine n
            ≡ run visit_limit (program_of typed.now) (method_at (program_of typed.now) method) (map plain_value arguments) (value_in globals) n) }
        ensures of { IfOk result (IsMachineOf (program_of typed.now)) }
    {
        let node = method_at(typed, method).node;
        match begin_call(
            alloc,
            typed,
            method,
            arguments,
            globals.as_slice(),
            node,
            VISIT_LIMIT,
        ) {
            Err(end) => stopped(alloc, end),
            Ok(env) => begun(alloc, method, env),
        }
    }

    /// Gives the run so many turns. It goes on with them where it is going, and else the answer is the one that it has given.
    pub fn advance(&mut self, alloc: Global, typed: &Typed, turns: u64) -> Turned
        requires { IsMachineOf (program_of typed.now) self.old }
        ensures advances { Advances (program_of typed.now) turns self.old self.new result }
        ensures of { IsMachineOf (program_of typed.now) self.new }
    {
        if self.told.is_going() {
            let told = go_on(alloc, typed, &mut self.run, turns);
            self.told = told;
            told
        } else {
            self.told
        }
    }

    /// The value of the result, as it is now. It is what a run gives that has ended.
    pub fn value(&self) -> &Value
        ensures { plain_value result.now ≡ value_of self.now }
    {
        &self.run.env.result
    }
}

/// A run that has stopped at its beginning.
fn stopped(alloc: Global, end: RunEnd) -> Result<Machine, NoMemory>
    ensures { IfOk result (λ machine. (machine.told ≡ told_of end) × IsKnown machine.told) }
{
    match told_of(end) {
        Turned::NoMemory => Err(AllocError),
        told => Ok(Machine {
            run: Run {
                method: 0,
                env: Env {
                    locals: Items::new(alloc),
                    globals: Items::new(alloc),
                    entry: Items::new(alloc),
                    result: Value::Unit,
                },
                frames: Items::new(alloc),
            },
            told,
        }),
    }
}

/// A run that has begun: the body of its method comes next.
fn begun(alloc: Global, method: u32, env: Env) -> Result<Machine, NoMemory>
    ensures { IfOk result (λ machine. machine ≡ record { run = record { method = method; env = env; frames = f.Block [] 0 ∷ [] }; told = t.Going }) }
{
    let mut frames = Items::new(alloc);
    match frames.push(Frame::Block {
        path: Items::new(alloc),
        next: 0,
    }) {
        Err(_) => Err(AllocError),
        Ok(()) => Ok(Machine {
            run: Run {
                method,
                env,
                frames,
            },
            told: Turned::Going,
        }),
    }
}
