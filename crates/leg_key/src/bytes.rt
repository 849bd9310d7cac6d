ghost use Rattle.std.specs.Prelude.{◌≡◌, ◌<◌, ◌^◌, ◌++◌, ◌∷◌, [], length, OnOk};
ghost use Rattle.std.specs.Result.{OkIff};
ghost use Rattle.key_rules.specs.Fits.{FitsList, FitsNumber};
ghost use Rattle.key_rules.specs.Writing.{number_bytes, literal_bytes, list_bytes};

use crate::NoMemory;
use std::alloc::AllocError;

/// Adds a byte at the end of a key.
pub fn add_byte(byte: u8, key: &mut Vec<u8>) -> Result<(), NoMemory>
    ensures { OnOk result (key.new.items ≡ key.old.items ++ byte ∷ []) }
{
    key.push(byte)?;
    Ok(())
}

/// Adds a number at the end of a key.
pub fn add_number(number: u32, key: &mut Vec<u8>) -> Result<(), NoMemory>
    ensures { OnOk result (key.new.items ≡ key.old.items ++ number_bytes number) }
{
    key.extend_from_slice(&number.to_be_bytes())?;
    Ok(())
}

/// Adds a number of 128 bits at the end of a key.
pub fn add_wide_number(number: i128, key: &mut Vec<u8>) -> Result<(), NoMemory>
    ensures { OnOk result (key.new.items ≡ key.old.items ++ literal_bytes number) }
{
    let bytes = number.to_be_bytes();
    key.extend_from_slice(&bytes)?;
    Ok(())
}

/// A length as a number, where there is one.
fn number(length: usize) -> Result<u32, NoMemory>
    ensures { OkIff result (length < 2 ^ 32) length }
{
    u32::try_from(length).map_err(|_| AllocError)
}

/// Adds the length of a list at the end of a key.
pub fn add_length(length: usize, key: &mut Vec<u8>) -> Result<(), NoMemory>
    ensures written { OnOk result (key.new.items ≡ key.old.items ++ number_bytes length) }
    ensures fits { OnOk result (FitsNumber length) }
{
    add_number(number(length)?, key)
}

/// Adds a list of numbers at the end of a key.
pub fn add_numbers(numbers: &[u32], key: &mut Vec<u8>) -> Result<(), NoMemory>
    ensures written { OnOk result (key.new.items ≡ key.old.items ++ list_bytes number_bytes numbers.now) }
    ensures fits { OnOk result (FitsList FitsNumber numbers.now) }
{
    add_length(numbers.len(), key)?;
    for number in numbers {
        add_number(*number, key)?;
    }
    Ok(())
}
