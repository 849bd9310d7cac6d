ghost use Rattle.std.specs.Prelude.{◌≡◌, map, Option};
ghost use Rattle.program_trees.specs.Programs.{ProgramTree, claim_of};
ghost use Rattle.program_trees.specs.Variables.{Variable};
ghost use Rattle.run_rules.specs.Values.{is_true, claim_value};
ghost use Rattle.run_stops.specs.ExpressionStops.{Stop, stopping};
ghost use Rattle.run_values.specs.Value.{plain_value};
ghost use Rattle.expression_values.specs.Environment.{values_in, expression_in};
ghost use Rattle.expression_values.specs.Answers.{Tells as TellsStop};
ghost use Rattle.stopped_runs.specs.Runs.{Stopped, on_stop};
ghost use Rattle.stopped_runs.specs.Tests.{stopping_argument};
ghost use Rattle.run_rules.specs.Runs.{argument_values};
ghost use Rattle.run_steps.specs.Ends.{Tells, Gives};
ghost use Rattle.run_steps.specs.Arguments.{arguments_in};

use crate::ending::RunEnd;
use expression_values::{Env, EvalEnd, eval_all, eval_expr, eval_truth};
use lk_programs::{Expr, Kind};
use run_values::Value;
use sqlite_items::Items;
use std::alloc::Global;

/// What becomes of a run where an evaluation has ended so.
fn end_of(end: EvalEnd) -> RunEnd
    ensures { (stop : Option Stop) (next : Stopped) → TellsStop end stop → Tells result (on_stop stop next) }
{
    match end {
        EvalEnd::Index(node) => RunEnd::Fails(Kind::Index, node),
        EvalEnd::Division(node) => RunEnd::Fails(Kind::Division, node),
        EvalEnd::Wide(node) => RunEnd::Wide(node),
        EvalEnd::NoMemory => RunEnd::NoMemory,
    }
}

/// The value of the expression, or why the run stops.
pub fn value_of(alloc: Global, expr: &Expr, env: &Env) -> Result<Value, RunEnd>
    ensures { (program : ProgramTree Variable) → Gives (λ v. plain_value v
        ≡ claim_value program.records (values_in env.now) (claim_of (expression_in env.now expr.now)))
        (on_stop (stopping program.records (values_in env.now) (expression_in env.now expr.now))) result }
{
    match eval_expr(alloc, expr, env) {
        Err(end) => Err(end_of(end)),
        Ok(held) => match held.into_value(alloc) {
            Err(_) => Err(RunEnd::NoMemory),
            Ok(value) => Ok(value),
        },
    }
}

/// The truth value of the expression, or why the run stops.
pub fn truth_of(alloc: Global, expr: &Expr, env: &Env) -> Result<bool, RunEnd>
    ensures { (program : ProgramTree Variable) → Gives (λ b. b ≡ is_true program.records (values_in env.now) (claim_of (expression_in env.now expr.now)))
        (on_stop (stopping program.records (values_in env.now) (expression_in env.now expr.now))) result }
{
    match eval_truth(alloc, expr, env) {
        Err(end) => Err(end_of(end)),
        Ok(holds) => Ok(holds),
    }
}

/// The values of the arguments of a call, or why the run stops.
pub fn arguments_of(alloc: Global, exprs: &[Expr], env: &Env) -> Result<Items<Value>, RunEnd>
    ensures { (program : ProgramTree Variable) → Gives (λ vs. map plain_value vs ≡ argument_values program (values_in env.now) (arguments_in env.now exprs.now))
        (on_stop (stopping_argument program.records (values_in env.now) (arguments_in env.now exprs.now))) result }
{
    match eval_all(alloc, exprs, env) {
        Err(end) => Err(end_of(end)),
        Ok(values) => Ok(values),
    }
}
