ghost use Rattle.std.specs.Prelude.{◌≡◌, ◌++◌, length, drop, map, IfOk};
ghost use Rattle.slang_values.specs.Value.{default};
ghost use Rattle.lk_claims.specs.Claim.{value_type};
ghost use Rattle.lk_programs.specs.Program.{record_types};
ghost use Rattle.program_trees.specs.Programs.{MethodTree};
ghost use Rattle.program_trees.specs.Variables.{Variable};
ghost use Rattle.run_rules.specs.Runs.{entered as plain_entered};
ghost use Rattle.run_values.specs.Value.{plain_value};
ghost use Rattle.expression_values.specs.Environment.{values_in, value_in};
ghost use Rattle.run_entering.specs.Counts.{EnteredCounts};
ghost use Rattle.run_entering.specs.Entered.{default_values, IsMadeOf};

use crate::NoMemory;
use expression_values::Env;
use lk_claims::Ty;
use lk_programs::RecordTy;
use run_values::{Value, default_of};
use sqlite_items::Items;
use std::alloc::Global;

/// The values with which a method begins that has locals and a result of these types: its arguments, the defaults of its
/// other locals and of its result, and the globals, which are its entry values too.
pub fn entered(
    alloc: Global,
    records: &[RecordTy],
    locals: &[Ty],
    result_ty: &Ty,
    arguments: Items<Value>,
    globals: &[Value],
) -> Result<Env, NoMemory>
    ensures values { IfOk result (λ env. (method : MethodTree Variable) → method.locals ≡ map value_type locals.now → method.result ≡ value_type result_ty.now
        → values_in env ≡ plain_entered (record_types records.now) method (map plain_value arguments) (value_in globals.now)) }
    ensures counts { IfOk result (EnteredCounts (length arguments) (length locals.now) (length globals.now)) }
{
    match filled(alloc, records, locals, arguments) {
        Err(end) => Err(end),
        Ok(values) => begun(alloc, records, result_ty, values, globals),
    }
}

/// The values of a method that has these locals and these globals, and the default of its result.
fn begun(
    alloc: Global,
    records: &[RecordTy],
    result_ty: &Ty,
    values: Items<Value>,
    globals: &[Value],
) -> Result<Env, NoMemory>
    ensures { IfOk result (IsMadeOf values globals.now (default (record_types records.now) (value_type result_ty.now))) }
{
    match default_of(alloc, records, result_ty) {
        Err(end) => Err(end),
        Ok(outcome) => with_globals(alloc, values, outcome, globals),
    }
}

fn with_globals(
    alloc: Global,
    values: Items<Value>,
    outcome: Value,
    globals: &[Value],
) -> Result<Env, NoMemory>
    ensures { IfOk result (IsMadeOf values globals.now (plain_value outcome)) }
{
    match copied(alloc, globals) {
        Err(end) => Err(end),
        Ok(these) => with_entries(alloc, values, outcome, these, globals),
    }
}

fn with_entries(
    alloc: Global,
    values: Items<Value>,
    outcome: Value,
    these: Items<Value>,
    globals: &[Value],
) -> Result<Env, NoMemory>
    requires { these ≡ globals.now }
    ensures { IfOk result (IsMadeOf values globals.now (plain_value outcome)) }
{
    match copied(alloc, globals) {
        Err(end) => Err(end),
        Ok(entry) => Ok(Env {
            locals: values,
            globals: these,
            entry,
            result: outcome,
        }),
    }
}

/// The arguments, and behind them the defaults of the other locals.
fn filled(
    alloc: Global,
    records: &[RecordTy],
    locals: &[Ty],
    arguments: Items<Value>,
) -> Result<Items<Value>, NoMemory>
    ensures { IfOk result (λ vs. map plain_value vs ≡ map plain_value arguments ++ default_values (record_types records.now) (drop (length arguments) locals.now)) }
{
    match defaults_of(alloc, records, behind(locals, arguments.len())) {
        Err(end) => Err(end),
        Ok(defaults) => joined(arguments, defaults),
    }
}

/// The types behind the first ones.
fn behind(types: &[Ty], count: usize) -> &[Ty]
    ensures { result.now ≡ drop count types.now }
{
    if count < types.len() {
        &types[count..]
    } else {
        &[]
    }
}

/// The defaults of the types, in order.
fn defaults_of(alloc: Global, records: &[RecordTy], types: &[Ty]) -> Result<Items<Value>, NoMemory>
    ensures { IfOk result (λ vs. map plain_value vs ≡ default_values (record_types records.now) types.now) }
{
    let mut values = Items::new(alloc);
    for ty in types {
        values.push(default_of(alloc, records, ty)?)?;
    }
    Ok(values)
}

/// The values, and the others behind them.
fn joined(values: Items<Value>, others: Items<Value>) -> Result<Items<Value>, NoMemory>
    ensures { IfOk result (λ vs. vs ≡ values ++ others) }
{
    let mut all = values;
    match all.append(others) {
        Err(end) => Err(end),
        Ok(()) => Ok(all),
    }
}

/// Copies of the values.
fn copied(alloc: Global, values: &[Value]) -> Result<Items<Value>, NoMemory>
    ensures { IfOk result (λ vs. vs ≡ values.now) }
{
    let mut copies = Items::new(alloc);
    for value in values {
        copies.push(value.copy(alloc)?)?;
    }
    Ok(copies)
}
