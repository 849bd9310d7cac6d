ghost use Rattle.std.specs.Prelude.{ℕ, IfOk};
ghost use Rattle.program_trees.specs.Programs.{ProgramTree, set as set_tree, give as give_tree};
ghost use Rattle.program_trees.specs.Variables.{Variable};
ghost use Rattle.expression_values.specs.Environment.{variable_in, expression_in};
ghost use Rattle.run_variables.specs.Counts.{HasEntries, SameCounts};
ghost use Rattle.run_steps.specs.Steps.{Does, BeginsOf};

use crate::ending::{Next, RunEnd};
use crate::evaluating::value_of;
use expression_values::Env;
use lk_programs::Expr;
use run_variables::assign;
use std::alloc::Global;

/// A variable gets the value of the expression.
pub fn set(alloc: Global, expr: &Expr, env: &mut Env, number: u32) -> Result<Next, RunEnd>
    requires { HasEntries env.old }
    ensures does { (limit : ℕ) (program : ProgramTree Variable) (node : ℕ)
        → Does limit program (set_tree node (variable_in env.old number) (expression_in env.old expr.now)) env.old env.new result }
    ensures counts { SameCounts env.old env.new }
    ensures begins { (program : ProgramTree Variable) → IfOk result (BeginsOf program) }
{
    match value_of(alloc, expr, env) {
        Err(end) => Err(end),
        Ok(value) => {
            assign(env, number, value);
            Ok(Next::Rest)
        }
    }
}

/// The result gets the value of the expression.
pub fn give(alloc: Global, expr: &Expr, env: &mut Env) -> Result<Next, RunEnd>
    ensures does { (limit : ℕ) (program : ProgramTree Variable) (node : ℕ)
        → Does limit program (give_tree node (expression_in env.old expr.now)) env.old env.new result }
    ensures counts { SameCounts env.old env.new }
    ensures begins { (program : ProgramTree Variable) → IfOk result (BeginsOf program) }
{
    match value_of(alloc, expr, env) {
        Err(end) => Err(end),
        Ok(value) => {
            env.result = value;
            Ok(Next::Rest)
        }
    }
}
