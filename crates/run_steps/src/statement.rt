ghost use Rattle.std.specs.Prelude.{◌≡◌, length, IfOk};
ghost use Rattle.run_variables.specs.Counts.{HasEntries, SameCounts};
ghost use Rattle.run_steps.specs.Steps.{Does, program_of, code_in, CanCall, BeginsOf};
ghost use Rattle.std.specs.Prelude.{ℕ};
ghost use Rattle.program_trees.specs.Programs.{ProgramTree, CodeTrees, branch, assert as assert_tree};
ghost use Rattle.program_trees.specs.Variables.{Variable};
ghost use Rattle.lk_programs.specs.Program.{record_types};
ghost use Rattle.expression_values.specs.Environment.{expression_in};
ghost use Rattle.claim_tests.specs.Tested.{one_noted};

use crate::calling::call;
use crate::ending::{Next, RunEnd};
use crate::evaluating::truth_of;
use crate::setting::{give, set};
use crate::telling::one_tested;
use expression_values::Env;
use lk_programs::{Code, Expr, Kind, Noted, RecordTy, Typed};
use std::alloc::Global;

/// What the statement does, and what comes next.
pub fn begin(
    alloc: Global,
    typed: &Typed,
    code: &Code,
    env: &mut Env,
    limit: u64,
) -> Result<Next, RunEnd>
    requires entries { HasEntries env.old }
    requires globals { length env.old.globals ≡ length (program_of typed.now).globals }
    requires calls { CanCall (program_of typed.now) (code_in env.old code.now) }
    ensures does { Does limit (program_of typed.now) (code_in env.old code.now) env.old env.new result }
    ensures counts { SameCounts env.old env.new }
    ensures begins { IfOk result (BeginsOf (program_of typed.now)) }
{
    match code {
        Code::Val {
            variable,
            value,
            ..
        } => set(alloc, value, env, *variable),
        Code::Assign {
            variable,
            value,
            ..
        } => set(alloc, value, env, *variable),
        Code::Return { value, .. } => give(alloc, value, env),
        Code::Assert(noted) => assert(alloc, typed.records.as_slice(), noted, env, limit),
        Code::Deduce { .. } => Ok(Next::Rest),
        Code::If { test, .. } => part(alloc, test, env),
        Code::While { .. } => Ok(Next::Loop),
        Code::Call {
            target,
            name,
            method,
            arguments,
            ..
        } => call(
            alloc,
            typed,
            env,
            *target,
            *name,
            *method,
            arguments.as_slice(),
            limit,
        ),
    }
}

/// The claim is tested.
fn assert(
    alloc: Global,
    records: &[RecordTy],
    noted: &Noted,
    env: &Env,
    limit: u64,
) -> Result<Next, RunEnd>
    ensures does { (program : ProgramTree Variable) → program.records ≡ record_types records.now
        → Does limit program (assert_tree (one_noted env.now noted.now)) env.now env.now result }
    ensures begins { (program : ProgramTree Variable) → IfOk result (BeginsOf program) }
{
    match one_tested(alloc, records, noted, env, limit, Kind::Assert) {
        Err(end) => Err(end),
        Ok(()) => Ok(Next::Rest),
    }
}

/// The part of an `if` comes next that its test says.
fn part(alloc: Global, test: &Expr, env: &Env) -> Result<Next, RunEnd>
    ensures does { (limit : ℕ) (program : ProgramTree Variable) (node : ℕ) (on_true on_false : CodeTrees Variable)
        → Does limit program (branch node (expression_in env.now test.now) on_true on_false) env.now env.now result }
    ensures begins { (program : ProgramTree Variable) → IfOk result (BeginsOf program) }
{
    match truth_of(alloc, test, env) {
        Err(end) => Err(end),
        Ok(holds) => Ok(Next::Part(holds)),
    }
}
