ghost use Rattle.std.specs.Prelude.{◌≡◌, IfOk};
ghost use Rattle.std.specs.List.{position_or_len};
ghost use Rattle.std.specs.Str.{bytes_eq};
ghost use Rattle.slang_values.specs.declared.operators.Unary.{Unary};
ghost use Rattle.lk_programs.specs.declared.program.FieldTy.{FieldTy};
ghost use Rattle.type_rules.specs.Meanings.{Scope};
ghost use Rattle.text_types.specs.TextType.{text_value};
ghost use Rattle.typed_texts.specs.Claims as typed;
ghost use Rattle.typed_names.specs.Fields.{HasFields, place_in};

use crate::NoMemory;
use lk_programs::{FieldTy, RecordTy};
use slang_values::Unary;
use std::alloc::AllocError;
use text_types::TextType;

/// Whether the field is of that name.
fn is_named(field: &FieldTy, name: &str) -> bool
    ensures { result ≡ bytes_eq field.now.name name.now }
{
    field.name.as_str() == name
}

/// The place of the field of that name, or how many fields there are.
fn place_among(fields: &[FieldTy], name: &str) -> usize
    ensures { result ≡ position_or_len (λ (field : FieldTy). bytes_eq field.name name.now) fields.now }
{
    for at in 0..fields.len() {
        if is_named(&fields[at], name) {
            return at;
        }
    }
    fields.len()
}

/// A number, if it fits.
fn fitting(number: usize) -> Result<u32, NoMemory>
    ensures { IfOk result (λ n. n ≡ number) }
{
    match u32::try_from(number) {
        Ok(number) => Ok(number),
        Err(_) => Err(AllocError),
    }
}

/// The place of the field of that name in the record of that number.
fn place_of(records: &[RecordTy], number: u32, name: &str) -> Result<u32, NoMemory>
    ensures { IfOk result (λ place. place ≡ place_in records.now number name.now) }
{
    match records.get(number as usize) {
        None => Ok(0),
        Some(record) => fitting(place_among(record.fields.as_slice(), name)),
    }
}

/// The field of that name in the record of that number.
fn field_of(records: &[RecordTy], number: u32, name: &str) -> Result<Unary, NoMemory>
    ensures { IfOk result (λ op. op ≡ Unary.Field (place_in records.now number name.now)) }
{
    let place = place_of(records, number, name)?;
    Ok(Unary::Field(place))
}

/// What is selected by a name from what is of this type: a field of a record, else the size.
pub fn selector(records: &[RecordTy], ty: TextType, name: &str) -> Result<Unary, NoMemory>
    ensures { IfOk result (λ op. (at : Scope) → HasFields records.now at → op ≡ typed.selector at (text_value ty) name.now) }
{
    match ty {
        TextType::Record(number) => field_of(records, number, name),
        TextType::Unit | TextType::Z | TextType::B | TextType::Sequence(_) => Ok(Unary::Size),
    }
}
