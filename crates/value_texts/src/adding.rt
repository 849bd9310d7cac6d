ghost use Rattle.std.specs.Prelude.{◌≡◌, ◌++◌, IfOk, OnOk};
ghost use Rattle.run_texts.specs.Texts.{Names, value_text, values_text, more_text};
ghost use Rattle.run_values.specs.Value.{plain_value, plain_values};
ghost use Rattle.value_texts.specs.Names.{HasNames};

use crate::NoMemory;
use crate::parts::{add_gap, add_number, add_text, add_truth, record_name};
use lk_programs::RecordTy;
use run_values::Value;
use std::alloc::Global;

/// The text of a value: a number in decimal, `T` or `F`, `()`, or a sequence or a record by its parts.
pub fn value_text(alloc: Global, records: &[RecordTy], value: &Value) -> Result<Vec<u8>, NoMemory>
    ensures { IfOk result (λ text. (names : Names) → HasNames names records.now → text.items ≡ value_text names (plain_value value.now)) }
{
    let mut text = Vec::new(alloc);
    match added(alloc, records, value, &mut text) {
        Ok(()) => Ok(text),
        Err(end) => Err(end),
    }
}

/// Adds the text of a value.
pub fn add_value(
    alloc: Global,
    records: &[RecordTy],
    value: &Value,
    text: &mut Vec<u8>,
) -> Result<(), NoMemory>
    ensures { OnOk result ((names : Names) → HasNames names records.now → text.new.items ≡ text.old.items ++ value_text names (plain_value value.now)) }
{
    added(alloc, records, value, text)
}

#[cycle(adding)]
#[tactic(auto, using(run_values::proofs::Values::value_lines, crate::proofs::Said::part_lines))]
fn added(
    alloc: Global,
    records: &[RecordTy],
    value: &Value,
    text: &mut Vec<u8>,
) -> Result<(), NoMemory>
    ensures { OnOk result ((names : Names) → HasNames names records.now → text.new.items ≡ text.old.items ++ value_text names (plain_value value.now)) }
{
    match value {
        Value::Unit => add_text("()", text),
        Value::Z(z) => add_number(alloc, *z, text),
        Value::B(b) => add_truth(*b, text),
        Value::Seq(_, elements) => {
            add_text("ISZ(", text)?;
            added_all(alloc, records, elements.as_slice(), text)?;
            add_text(")", text)
        }
        Value::Rec(number, fields) => {
            add_text(record_name(records, *number), text)?;
            add_text("(", text)?;
            added_all(alloc, records, fields.as_slice(), text)?;
            add_text(")", text)
        }
    }
}

/// Adds the texts of values, with a comma between two.
#[cycle(adding)]
fn added_all(
    alloc: Global,
    records: &[RecordTy],
    values: &[Value],
    text: &mut Vec<u8>,
) -> Result<(), NoMemory>
    ensures { OnOk result ((names : Names) → HasNames names records.now → text.new.items ≡ text.old.items ++ values_text names (plain_values values.now)) }
{
    'parts: for place in 0..values.len() {
        add_gap(place, text)?;
        added(alloc, records, &values[place], text)?;
    }
    Ok(())
}
