ghost use Rattle.std.specs.Prelude.{◌<◌, length, map, string_bytes, IfOk};
ghost use Rattle.lk_programs.specs.Program.{record_types, field_types};
ghost use Rattle.argument_fronts.specs.Only.{IsOnly};
ghost use Rattle.argument_fronts.specs.Types.{names_of};
ghost use Rattle.call_arguments.specs.Arguments.{AreArgumentsOf};
ghost use Rattle.call_arguments.specs.Next.{plain_items, IsNext, IsShorter};

use crate::NoMemory;
use lk_programs::{FieldTy, RecordTy};
use run_values::Value;
use sqlite_items::Items;
use std::alloc::{AllocError, Global};
use value_reading::read_value;

/// The values of the words, where there is one for each of the parameters and each is an argument of its type; else none.
pub fn read_arguments(
    alloc: Global,
    records: &[RecordTy],
    params: &[FieldTy],
    words: &[String],
) -> Result<Option<Items<Value>>, NoMemory>
    ensures { IfOk result (IsOnly plain_items (AreArgumentsOf (names_of records.now) (record_types records.now) (map string_bytes words.now)
        (field_types params.now))) }
{
    let mut values = Items::new(alloc);
    let mut place = Place { params, words };
    'arguments: loop {
        match next_argument(alloc, records, place) {
            Err(end) => return Err(end),
            Ok(Next::Nothing) => return Ok(None),
            Ok(Next::Over) => return Ok(Some(values)),
            Ok(Next::Argument(value, rest)) => {
                match values.push(value) {
                    Err(_) => return Err(AllocError),
                    Ok(()) => {}
                }
                place = rest;
            }
        }
    }
}

/// The parameters and the words that are left.
#[derive(Clone, Copy)]
pub struct Place<'r> {
    pub params: &'r [FieldTy],
    pub words: &'r [String],
}

/// What comes next: no argument that fits, the end, or the value of an argument and what is left behind it.
#[derive(Drop)]
pub enum Next<'r> {
    Nothing,
    Over,
    Argument(Value, Place<'r>),
}

fn next_argument<'r>(
    alloc: Global,
    records: &[RecordTy],
    place: Place<'r>,
) -> Result<Next<'r>, NoMemory>
    ensures next { IfOk result (IsNext (names_of records.now) (record_types records.now) place.entry) }
    ensures shorter { IfOk result (IsShorter place.entry) }
{
    match (place.params.split_first(), place.words.split_first()) {
        (None, None) => Ok(Next::Over),
        (Some((param, params)), Some((word, words))) => {
            match read_value(alloc, records, &param.ty, word.as_str()) {
                Err(end) => Err(end),
                Ok(None) => Ok(Next::Nothing),
                Ok(Some(value)) => Ok(Next::Argument(value, Place { params, words })),
            }
        }
        _ => Ok(Next::Nothing),
    }
}
