ghost use Rattle.std.specs.Prelude.{◌≡◌, IfOk};
ghost use Rattle.slang_values.specs.Value.{updated, appended};
ghost use Rattle.run_values.specs.Value.{plain_value};

use crate::NoMemory;
use crate::reading::place_within;
use crate::value::Value;

impl Value {
    /// The sequence with another element at a place; out of range, as it is.
    #[tactic(auto, using(crate::proofs::Values::value_lines, crate::proofs::Values::update_lines))]
    pub fn updated(self, place: i128, element: Value) -> Value
        ensures { plain_value result ≡ updated (plain_value self) place (plain_value element) }
    {
        match self {
            Value::Seq(t, elements) => {
                let mut elements = elements;
                if let Some(n) = place_within(place, elements.len()) {
                    elements.set(n, element);
                }
                Value::Seq(t, elements)
            }
            Value::Unit | Value::Z(_) | Value::B(_) | Value::Rec(_, _) => Value::Unit,
        }
    }

    /// The sequence with one more element at its end.
    #[tactic(auto, using(crate::proofs::Values::value_lines, crate::proofs::Values::append_lines))]
    pub fn appended(self, element: Value) -> Result<Value, NoMemory>
        ensures { IfOk result (λ v. plain_value v ≡ appended (plain_value self) (plain_value element)) }
    {
        match self {
            Value::Seq(t, elements) => {
                let mut elements = elements;
                elements.push(element)?;
                Ok(Value::Seq(t, elements))
            }
            Value::Unit | Value::Z(_) | Value::B(_) | Value::Rec(_, _) => Ok(Value::Unit),
        }
    }
}
