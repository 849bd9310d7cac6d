ghost use Rattle.std.specs.Prelude.{◌≡◌, Option, length};
ghost use Rattle.std.specs.Option.{option_map};
ghost use Rattle.run_rules.specs.Runs.{returned as plain_returned};
ghost use Rattle.expression_values.specs.Environment.{values_in, variable_in};
ghost use Rattle.run_variables.specs.Counts.{HasEntries, SameCounts};

use expression_values::Env;
use run_variables::assign;

/// The values of a caller change at the end of the method that it called: the globals are as they are now, and the target has
/// the result.
pub fn returned(env: &mut Env, target: Option<u32>, callee: Env)
    requires entries { HasEntries env.old }
    requires globals { length callee.globals ≡ length env.old.globals }
    ensures values { values_in env.new ≡ plain_returned (values_in env.old) (option_map (variable_in env.old) target) (values_in callee) }
    ensures counts { SameCounts env.old env.new }
{
    let Env {
        globals,
        result: value,
        ..
    } = callee;
    env.globals = globals;
    if let Some(number) = target {
        assign(env, number, value);
    }
}
