ghost use Rattle.std.specs.Prelude.{◌≡◌, ◌<◌, pos, false, true, MatchOption};
ghost use Rattle.slang_values.specs.Value.{field_of};
ghost use Rattle.run_values.specs.Value.{plain_value, held_value};
ghost use Rattle.run_values.specs.Reading.{is_within, IsElement, IsElementOf};

use crate::held::Held;
use crate::value::Value;

/// The place as one of a list of that length, where it is one.
#[tactic(auto, using(crate::proofs::Places::within, crate::proofs::Places::not_within))]
pub fn place_within(place: i128, length: usize) -> Option<usize>
    ensures { MatchOption result (is_within length place ≡ false) (λ n. (place ≡ pos n) × (n < length) × (is_within length place ≡ true)) }
{
    match usize::try_from(place) {
        Ok(n) => { if n < length { Some(n) } else { None } }
        Err(_) => None,
    }
}

impl<'v> Held<'v> {
    /// The element at a place, where there is one. It is not copied.
    pub fn element(self, place: i128) -> Option<Held<'v>>
        ensures { IsElement (held_value self.entry) place result }
    {
        match self {
            Held::Borrowed(value) => borrowed_element(value, place),
            Held::Owned(value) => match taken_element(value, place) {
                None => None,
                Some(element) => Some(Held::Owned(element)),
            },
        }
    }

    /// The field at a place; of a value that has none there, the value of type `Unit`. It is not copied.
    pub fn field(self, place: u32) -> Held<'v>
        ensures { held_value result ≡ field_of place (held_value self.entry) }
    {
        match self {
            Held::Borrowed(value) => borrowed_field(value, place),
            Held::Owned(value) => Held::Owned(taken_field(value, place)),
        }
    }
}

#[tactic(auto, using(crate::proofs::Values::value_lines, crate::proofs::Values::element_lines))]
fn borrowed_element(value: &Value, place: i128) -> Option<Held<'_>>
    ensures { IsElement (plain_value value.now) place result }
{
    match value {
        Value::Seq(_, elements) => match place_within(place, elements.len()) {
            None => None,
            Some(n) => match elements.get(n) {
                None => None,
                Some(element) => Some(Held::Borrowed(element)),
            },
        },
        Value::Unit | Value::Z(_) | Value::B(_) | Value::Rec(_, _) => None,
    }
}

#[tactic(auto, using(crate::proofs::Values::value_lines, crate::proofs::Values::element_lines))]
fn taken_element(value: Value, place: i128) -> Option<Value>
    ensures { IsElementOf (plain_value value) place result }
{
    match value {
        Value::Seq(_, elements) => {
            let mut elements = elements;
            match place_within(place, elements.len()) {
                None => None,
                Some(n) => Some(elements.remove(n)),
            }
        }
        Value::Unit | Value::Z(_) | Value::B(_) | Value::Rec(_, _) => None,
    }
}

#[tactic(auto, using(crate::proofs::Values::value_lines, crate::proofs::Values::field_lines))]
fn borrowed_field(value: &Value, place: u32) -> Held<'_>
    ensures { held_value result ≡ field_of place (plain_value value.now) }
{
    match value {
        Value::Rec(_, fields) => match fields.get(place as usize) {
            None => Held::Owned(Value::Unit),
            Some(field) => Held::Borrowed(field),
        },
        Value::Unit | Value::Z(_) | Value::B(_) | Value::Seq(_, _) => Held::Owned(Value::Unit),
    }
}

#[tactic(auto, using(crate::proofs::Values::value_lines, crate::proofs::Values::field_lines))]
fn taken_field(value: Value, place: u32) -> Value
    ensures { plain_value result ≡ field_of place (plain_value value) }
{
    match value {
        Value::Rec(_, fields) => {
            let mut fields = fields;
            if (place as usize) < fields.len() {
                fields.remove(place as usize)
            } else {
                Value::Unit
            }
        }
        Value::Unit | Value::Z(_) | Value::B(_) | Value::Seq(_, _) => Value::Unit,
    }
}
