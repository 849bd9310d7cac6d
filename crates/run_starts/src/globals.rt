ghost use Rattle.std.specs.Prelude.{◌≡◌, ◌++◌, ◌∷◌, [], map, IfOk, OnOk};
ghost use Rattle.slang_values.specs.Value.{Records, unit};
ghost use Rattle.program_trees.specs.Programs.{claim_of, renamed_expr};
ghost use Rattle.program_trees.specs.Variables.{Variable, global, with_kinds};
ghost use Rattle.lk_programs.specs.Expr.{typed_expr};
ghost use Rattle.lk_programs.specs.Typed.{program_tree};
ghost use Rattle.run_rules.specs.Runs.{initial_value};
ghost use Rattle.run_rules.specs.Values.{claim_value};
ghost use Rattle.run_values.specs.Value.{plain_value};
ghost use Rattle.expression_values.specs.Environment.{values_in};
ghost use Rattle.run_starts.specs.Constants.{constant_value};

use crate::NoMemory;
use expression_values::{Env, eval_expr};
use lk_programs::{Expr, Typed};
use run_values::Value;
use sqlite_items::Items;
use std::alloc::{AllocError, Global};

/// The values that the globals have from the start. They are constants, whose evaluation does not stop.
pub fn initial_globals(alloc: Global, typed: &Typed) -> Result<Items<Value>, NoMemory>
    ensures { IfOk result (λ values. map plain_value values
        ≡ map (initial_value (with_kinds (program_tree typed.now))) (with_kinds (program_tree typed.now)).globals) }
{
    let env = no_values(alloc);
    values_of(alloc, typed.globals.as_slice(), &env)
}

/// The values of the constants with which globals begin.
fn values_of(
    alloc: Global,
    globals: &[lk_programs::Global],
    env: &Env,
) -> Result<Items<Value>, NoMemory>
    requires { (x : Variable) → values_in env.now x ≡ unit }
    ensures { IfOk result (λ values. (records : Records) → map plain_value values ≡ map (constant_value records) globals.now) }
{
    let mut values = Items::new(alloc);
    match add_values(alloc, globals, env, &mut values) {
        Err(end) => Err(end),
        Ok(()) => Ok(values),
    }
}

/// Adds the values of the constants with which globals begin.
fn add_values(
    alloc: Global,
    globals: &[lk_programs::Global],
    env: &Env,
    values: &mut Items<Value>,
) -> Result<(), NoMemory>
    requires no_values { (x : Variable) → values_in env.now x ≡ unit }
    requires none { values.old ≡ [] }
    ensures { OnOk result ((records : Records) → map plain_value values.new ≡ map (constant_value records) globals.now) }
{
    'globals: for place in 0..globals.len() {
        add_value(alloc, &globals[place], env, values)?;
    }
    Ok(())
}

/// No variable has a value.
fn no_values(alloc: Global) -> Env
    ensures { (x : Variable) → values_in result x ≡ unit }
{
    Env {
        locals: Items::new(alloc),
        globals: Items::new(alloc),
        entry: Items::new(alloc),
        result: Value::Unit,
    }
}

/// Adds the value of the constant with which the global begins.
fn add_value(
    alloc: Global,
    own: &lk_programs::Global,
    env: &Env,
    values: &mut Items<Value>,
) -> Result<(), NoMemory>
    requires { (x : Variable) → values_in env.now x ≡ unit }
    ensures { OnOk result ((records : Records) → map plain_value values.new ≡ map plain_value values.old ++ constant_value records own.now ∷ []) }
{
    match initial_value(alloc, &own.init, env) {
        Err(end) => Err(end),
        Ok(value) => match values.push(value) {
            Err(_) => Err(AllocError),
            Ok(()) => Ok(()),
        },
    }
}

/// The value of a constant, as it is where no variable has a value.
fn initial_value(alloc: Global, init: &Expr, env: &Env) -> Result<Value, NoMemory>
    requires { (x : Variable) → values_in env.now x ≡ unit }
    ensures { IfOk result (λ value. (records : Records) → plain_value value
        ≡ claim_value records (λ x. unit) (claim_of (renamed_expr global (typed_expr init.now)))) }
{
    match eval_expr(alloc, init, env) {
        Ok(held) => held.into_value(alloc),
        Err(_) => Err(AllocError),
    }
}
