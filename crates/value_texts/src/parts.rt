ghost use Rattle.std.specs.Prelude.{◌≡◌, ◌++◌, [], get_or, IfOk, OnOk};
ghost use Rattle.std.specs.String.{string_bytes};
ghost use Rattle.std.specs.Fmt.{signed_decimal};
ghost use Rattle.value_texts.specs.Names.{record_names, truth_word, gap};

use crate::NoMemory;
use lk_programs::RecordTy;
use std::alloc::Global;

/// Adds these characters.
pub fn add_text(word: &str, text: &mut Vec<u8>) -> Result<(), NoMemory>
    ensures { OnOk result (text.new.items ≡ text.old.items ++ word.now) }
{
    text.extend_from_slice(word.as_bytes())?;
    Ok(())
}

/// Adds a number in decimal.
pub fn add_number(alloc: Global, z: i128, text: &mut Vec<u8>) -> Result<(), NoMemory>
    ensures { OnOk result (text.new.items ≡ text.old.items ++ signed_decimal z) }
{
    let digits = number_text(alloc, z)?;
    add_text(digits.as_str(), text)
}

fn number_text(alloc: Global, z: i128) -> Result<String, NoMemory>
    ensures { IfOk result (λ digits. string_bytes digits ≡ signed_decimal z) }
{
    format!(in alloc; "{z}")
}

/// Adds what stands in front of a part, by its place.
pub fn add_gap(place: usize, text: &mut Vec<u8>) -> Result<(), NoMemory>
    ensures { OnOk result (text.new.items ≡ text.old.items ++ gap place) }
{
    if place == 0 {
        Ok(())
    } else {
        add_text(", ", text)
    }
}

/// Adds `T` or `F`.
pub fn add_truth(b: bool, text: &mut Vec<u8>) -> Result<(), NoMemory>
    ensures { OnOk result (text.new.items ≡ text.old.items ++ truth_word b) }
{
    add_text(if b { "T" } else { "F" }, text)
}

/// The name of the record of that number, where there is one.
#[tactic(auto, using(crate::proofs::RecordNames::name_lines))]
pub fn record_name(records: &[RecordTy], number: u32) -> &str
    ensures { result.now ≡ get_or (record_names records.now) number [] }
{
    match records.get(number as usize) {
        Some(record) => record.name.as_str(),
        None => "",
    }
}
