ghost use Rattle.std.specs.Prelude.{map};
ghost use Rattle.key_rules.specs.Reading.{read_type as type_reader, type_behind};
ghost use Rattle.key_rules.specs.Readers.{read_list, read_members};
ghost use Rattle.key_cursor.specs.Reads.{Joins, Reads, left};
ghost use Rattle.lk_claims.specs.Claim.{value_type};
ghost use Rattle.claim_reader.specs.Heads.{type_head_data};

use crate::codes::{TypeHead, type_head};
use key_cursor::{KeyCursor, ReadEnd};
use lk_claims::Ty;
use sqlite_items::{Boxed, Items};
use std::alloc::Global;

/// Reads a type, of so many parts one inside another at most.
#[cycle(types)]
pub(crate) fn read_type(
    alloc: Global,
    cursor: &mut KeyCursor<'_>,
    depth: u32,
) -> Result<Ty, ReadEnd>
    ensures { Reads value_type (type_reader depth) (left cursor.old) (left cursor.new) result }
{
    if depth == 0 {
        return Err(ReadEnd::NotKey);
    }
    let byte = cursor.read_byte()?;
    match type_head(byte) {
        Some(head) => read_type_behind(alloc, cursor, depth - 1, head),
        None => Err(ReadEnd::NotKey),
    }
}

/// Reads what follows the first byte of a type.
#[cycle(types)]
#[tactic(auto, using(lk_claims::proofs::Types::type_lines))]
fn read_type_behind(
    alloc: Global,
    cursor: &mut KeyCursor<'_>,
    depth: u32,
    head: TypeHead,
) -> Result<Ty, ReadEnd>
    ensures { Reads value_type (type_behind (type_reader depth) (type_head_data head)) (left cursor.old) (left cursor.new) result }
{
    match head {
        TypeHead::Number => Ok(Ty::Z),
        TypeHead::Truth => Ok(Ty::B),
        TypeHead::Sequence => {
            let element = read_type(alloc, cursor, depth)?;
            let element = Boxed::new(alloc, element)?;
            Ok(Ty::Seq(element))
        }
        TypeHead::Record => {
            let number = cursor.read_number()?;
            Ok(Ty::Rec(number))
        }
    }
}

fn add_types(
    alloc: Global,
    cursor: &mut KeyCursor<'_>,
    depth: u32,
    count: u32,
    types: &mut Items<Ty>,
) -> Result<(), ReadEnd>
    ensures { Joins value_type (read_members (type_reader depth) count) types.old types.new (left cursor.old) (left cursor.new) result }
{
    for _ in 0..count {
        let ty = read_type(alloc, cursor, depth)?;
        types.push(ty)?;
    }
    Ok(())
}

/// Reads a list of types.
pub fn read_types(
    alloc: Global,
    cursor: &mut KeyCursor<'_>,
    depth: u32,
) -> Result<Items<Ty>, ReadEnd>
    ensures { Reads (map value_type) (read_list (type_reader depth)) (left cursor.old) (left cursor.new) result }
{
    let count = cursor.read_count()?;
    let mut types = Items::new(alloc);
    add_types(alloc, cursor, depth, count, &mut types)?;
    Ok(types)
}
