ghost use Rattle.std.specs.Prelude.{◌≡◌};
ghost use Rattle.run_values.specs.Value.{held_value};
ghost use Rattle.expression_values.specs.Environment.{value_in, values_in, variable_in};

use run_values::{Held, Value};
use sqlite_items::Items;

/// The values of a method's variables.
#[derive(Drop)]
pub struct Env {
    pub locals: Items<Value>,
    pub globals: Items<Value>,
    /// What the globals were when the method began.
    pub entry: Items<Value>,
    pub result: Value,
}

impl Env {
    /// The value of a variable by its number.
    pub fn variable(&self, number: u32) -> Held<'_>
        ensures { held_value result ≡ values_in self.now (variable_in self.now number) }
    {
        let place = number as usize;
        let locals = self.locals.len();
        let globals = self.globals.len();
        if place < locals {
            value_at(self.locals.as_slice(), place)
        } else if place - locals < globals {
            value_at(self.globals.as_slice(), place - locals)
        } else if place - locals - globals < globals {
            value_at(self.entry.as_slice(), place - locals - globals)
        } else {
            Held::Borrowed(&self.result)
        }
    }
}

#[tactic(auto, using(crate::proofs::Places::place_lines, run_values::proofs::Values::value_lines))]
fn value_at(values: &[Value], place: usize) -> Held<'_>
    ensures { held_value result ≡ value_in values.now place }
{
    match values.get(place) {
        Some(value) => Held::Borrowed(value),
        None => Held::Owned(Value::Unit),
    }
}
