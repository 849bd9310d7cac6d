ghost use Rattle.std.specs.Prelude.{◌≡◌, length};
ghost use Rattle.run_rules.specs.Values.{with_value};
ghost use Rattle.run_values.specs.Value.{plain_value};
ghost use Rattle.expression_values.specs.Environment.{values_in, variable_in};
ghost use Rattle.run_variables.specs.Counts.{SameCounts, HasEntries};

use expression_values::Env;
use run_values::Value;

/// Gives a variable this value, by its number.
#[tactic(auto, using(crate::proofs::Assigned::assigned_lines))]
pub fn assign(env: &mut Env, number: u32, value: Value)
    requires { HasEntries env.old }
    ensures values { values_in env.new ≡ with_value (values_in env.old) (variable_in env.old number) (plain_value value) }
    ensures counts { SameCounts env.old env.new }
{
    let place = number as usize;
    let locals = env.locals.len();
    let globals = env.globals.len();
    if place < locals {
        env.locals.set(place, value);
    } else if place - locals < globals {
        env.globals.set(place - locals, value);
    } else if place - locals - globals < globals {
        env.entry.set(place - locals - globals, value);
    } else {
        env.result = value;
    }
}
