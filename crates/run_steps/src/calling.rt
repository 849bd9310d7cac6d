ghost use Rattle.std.specs.Prelude.{◌≡◌, ℕ, ◌<◌, ◌≤◌, length, map, IfOk, Option, List};
ghost use Rattle.std.specs.Option.{option_map};
ghost use Rattle.program_trees.specs.Programs.{ProgramTree, MethodTree, call as call_tree, renamed_method};
ghost use Rattle.program_trees.specs.Variables.{Variable, variable_of, global};
ghost use Rattle.run_rules.specs.Runs.{method_at, entered as plain_entered, Stack};
ghost use Rattle.run_values.specs.Value.{plain_value};
ghost use Rattle.slang_values.specs.Value as plain;
ghost use Rattle.lk_programs.specs.Typed.{program_tree};
ghost use Rattle.lk_programs.specs.Program.{method_tree, record_types};
ghost use Rattle.expression_values.specs.Environment.{values_in, variable_in};
ghost use Rattle.stopped_runs.specs.Runs.{Continuation, Stopped, on_test, reached};
ghost use Rattle.stopped_runs.specs.Tests.{test};
ghost use Rattle.run_steps.specs.Arguments.{arguments_in};
ghost use Rattle.run_steps.specs.Ends.{Gives};
ghost use Rattle.run_steps.specs.Steps.{Does, program_of, IsOf, BeginsOf};
ghost use Rattle.run_steps.specs.Entering.{Enters, IsMethod};

use crate::ending::{Next, RunEnd};
use crate::evaluating::arguments_of;
use crate::telling::tested_at;
use expression_values::Env;
use lk_programs::{Expr, Method, NodeNo, Typed};
use run_entering::entered;
use run_values::Value;
use sqlite_items::Items;
use std::alloc::Global;

/// A call begins its method, from the values of its arguments.
pub fn call(
    alloc: Global,
    typed: &Typed,
    env: &Env,
    target: Option<u32>,
    name: NodeNo,
    number: u32,
    arguments: &[Expr],
    limit: u64,
) -> Result<Next, RunEnd>
    requires globals { length env.now.globals ≡ length (program_of typed.now).globals }
    requires there { number < length (program_of typed.now).methods }
    requires few { length arguments.now ≤ length (method_at (program_of typed.now) number).locals }
    ensures does { (node : ℕ) → Does limit (program_of typed.now) (call_tree node (option_map (variable_in env.now) target) name.0 number
        (arguments_in env.now arguments.now)) env.now env.now result }
    ensures begins { IfOk result (BeginsOf (program_of typed.now)) }
{
    match arguments_of(alloc, arguments, env) {
        Err(end) => Err(end),
        Ok(values) => match begin_call(
            alloc,
            typed,
            number,
            values,
            env.globals.as_slice(),
            name,
            limit,
        ) {
            Err(end) => Err(end),
            Ok(callee) => Ok(Next::Method(number, target, callee)),
        },
    }
}

/// The values with which the method of that number begins, where they meet its Requires. A false one is told of at the given node.
pub fn begin_call(
    alloc: Global,
    typed: &Typed,
    number: u32,
    arguments: Items<Value>,
    globals: &[Value],
    node: NodeNo,
    limit: u64,
) -> Result<Env, RunEnd>
    requires globals { length globals.now ≡ length (program_of typed.now).globals }
    requires there { number < length (program_of typed.now).methods }
    requires few { length arguments ≤ length (method_at (program_of typed.now) number).locals }
    ensures enters { Enters limit (program_of typed.now) number (map plain_value arguments) globals.now node.0 result }
    ensures begins { IfOk result (IsOf (program_of typed.now) number) }
{
    let method = method_at(typed, number);
    let records = typed.records.as_slice();
    match entered(
        alloc,
        records,
        method.locals.as_slice(),
        &method.result,
        arguments,
        globals,
    ) {
        Err(_) => Err(RunEnd::NoMemory),
        Ok(env) => match tested_at(
            alloc,
            records,
            method.requires_.as_slice(),
            &env,
            limit,
            node,
        ) {
            Err(end) => Err(end),
            Ok(()) => Ok(env),
        },
    }
}

/// The method of that number.
pub fn method_at(typed: &Typed, number: u32) -> &Method
    requires { number < length (program_of typed.now).methods }
    ensures { IsMethod (program_of typed.now) number result.now }
{
    let place = number as usize;
    let methods = typed.methods.as_slice();
    &methods[place]
}
