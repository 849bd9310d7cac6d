ghost use Rattle.std.specs.Prelude.{◌≡◌, IfOk};
ghost use Rattle.run_values.specs.Value.{plain_value, held_value};

use crate::NoMemory;
use crate::value::Value;
use std::alloc::Global;

/// A value that stands elsewhere, or on its own. So that what is only read is not copied.
#[derive(Drop)]
pub enum Held<'v> {
    Borrowed(&'v Value),
    Owned(Value),
}

impl<'v> Held<'v> {
    pub fn as_value(&self) -> &Value
        ensures { plain_value result.now ≡ held_value self.now }
    {
        match self {
            Held::Borrowed(value) => value,
            Held::Owned(value) => value,
        }
    }

    /// The value on its own.
    pub fn into_value(self, alloc: Global) -> Result<Value, NoMemory>
        ensures { IfOk result (λ v. plain_value v ≡ held_value self.entry) }
    {
        match self {
            Held::Borrowed(value) => value.copy(alloc),
            Held::Owned(value) => Ok(value),
        }
    }
}
