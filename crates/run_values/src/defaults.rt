ghost use Rattle.std.specs.Prelude.{◌≡◌, IfOk};
ghost use Rattle.slang_values.specs.Value.{default, default_within as plain_default_within, fields};
ghost use Rattle.lk_claims.specs.Claim.{value_type};
ghost use Rattle.lk_programs.specs.Program.{field_types, record_types};
ghost use Rattle.run_values.specs.Value.{plain_value};
ghost use Rattle.run_values.specs.Defaults.{default_record};

use crate::NoMemory;
use crate::value::Value;
use lk_claims::Ty;
use lk_programs::{FieldTy, RecordTy};
use sqlite_items::Items;
use std::alloc::Global;

/// The default of a type: 0, F, the empty sequence, or the record of the defaults of its fields.
pub fn default_of(alloc: Global, records: &[RecordTy], ty: &Ty) -> Result<Value, NoMemory>
    ensures { IfOk result (λ v. plain_value v ≡ default (record_types records.now) (value_type ty.now)) }
{
    default_within(alloc, records, ty, records.len())
}

#[cycle(default)]
#[tactic(auto, using(crate::proofs::Values::value_lines, lk_claims::proofs::Types::type_lines))]
fn default_within(
    alloc: Global,
    records: &[RecordTy],
    ty: &Ty,
    depth: usize,
) -> Result<Value, NoMemory>
    ensures { IfOk result (λ v. plain_value v ≡ plain_default_within (record_types records.now) depth (value_type ty.now)) }
{
    match ty {
        Ty::Unit => Ok(Value::Unit),
        Ty::Z => Ok(Value::Z(0)),
        Ty::B => Ok(Value::B(false)),
        Ty::Seq(t) => Ok(Value::Seq(t.get().copy(alloc)?, Items::new(alloc))),
        Ty::Rec(n) => {
            if depth == 0 {
                Ok(Value::Rec(*n, Items::new(alloc)))
            } else {
                default_record(alloc, records, *n, depth - 1)
            }
        }
    }
}

/// A record whose fields have the defaults of their types, to a depth of that many records.
#[cycle(default)]
#[tactic(auto, using(crate::proofs::Values::value_lines))]
fn default_record(
    alloc: Global,
    records: &[RecordTy],
    number: u32,
    depth: usize,
) -> Result<Value, NoMemory>
    ensures { IfOk result (λ v. plain_value v ≡ default_record (record_types records.now) depth number) }
{
    let mut values = Items::new(alloc);
    for field in fields_of(records, number) {
        values.push(default_within(alloc, records, &field.ty, depth)?)?;
    }
    Ok(Value::Rec(number, values))
}

/// The fields of the record of that number, where there is one.
#[tactic(auto, using(crate::proofs::Fields::field_lines))]
fn fields_of(records: &[RecordTy], number: u32) -> &[FieldTy]
    ensures { field_types result.now ≡ fields (record_types records.now) number }
{
    match records.get(number as usize) {
        Some(record) => record.fields.as_slice(),
        None => &[],
    }
}
