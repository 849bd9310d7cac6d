ghost use Rattle.std.specs.Prelude.{◌≡◌, IfOk};

use crate::NoMemory;
use lk_claims::Ty;
use owned_results::both;
use sqlite_items::Items;
use std::alloc::Global;

/// A value of a run.
#[derive(Drop)]
pub enum Value {
    Unit,
    Z(i128),
    B(bool),
    /// The type of the elements, and the elements.
    Seq(Ty, Items<Value>),
    /// The record's number, and its fields in order.
    Rec(u32, Items<Value>),
}

impl Value {
    /// The same value.
    pub fn copy(&self, alloc: Global) -> Result<Value, NoMemory>
        ensures { IfOk result (λ v. v ≡ self.now) }
    {
        copy_of(alloc, self)
    }
}

#[cycle(copy)]
fn copy_of(alloc: Global, value: &Value) -> Result<Value, NoMemory>
    ensures { IfOk result (λ v. v ≡ value.now) }
{
    match value {
        Value::Unit => Ok(Value::Unit),
        Value::Z(z) => Ok(Value::Z(*z)),
        Value::B(b) => Ok(Value::B(*b)),
        Value::Seq(t, vs) => {
            let (t, vs) = both(t.copy(alloc), copy_all(alloc, vs.as_slice()))?;
            Ok(Value::Seq(t, vs))
        }
        Value::Rec(n, vs) => Ok(Value::Rec(*n, copy_all(alloc, vs.as_slice())?)),
    }
}

#[cycle(copy)]
fn copy_all(alloc: Global, values: &[Value]) -> Result<Items<Value>, NoMemory>
    ensures { IfOk result (λ vs. vs ≡ values.now) }
{
    let mut copies = Items::new(alloc);
    for value in values {
        copies.push(copy_of(alloc, value)?)?;
    }
    Ok(copies)
}
