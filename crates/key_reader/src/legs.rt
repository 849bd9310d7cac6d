ghost use Rattle.std.specs.Prelude.{◌≡◌, IfOk, None, Some, if◌then◌else◌, map};
ghost use Rattle.std.specs.Option.{option_map};
ghost use Rattle.key_rules.specs.Reading.{read_leg as leg_reader, read_type as type_reader};
ghost use Rattle.key_rules.specs.Readers.{read_list, read_members};
ghost use Rattle.key_cursor.specs.Reads.{Joins, Reads, left};
ghost use Rattle.key_cursor.specs.declared.end.ReadEnd.TheVariants.{NotKey};
ghost use Rattle.key_depths.specs.Depths.{decode_within, depth_limit};
ghost use Rattle.lk_claims.specs.Claim.{value_type};
ghost use Rattle.lk_programs.specs.LegData.{leg_tree};

use crate::NoMemory;
use crate::items::read_items;
use claim_reader::read_types;
use key_cursor::{KeyCursor, ReadEnd};
use lk_claims::Ty;
use lk_programs::Leg;
use owned_results::all_three;
use sqlite_items::Items;
use std::alloc::{AllocError, Global};

/// What a key begins with: the form of keys.
const PROFILE: u8 = 1;

/// How deep the parts of a well-formed leg are at most.
fn deepest() -> u32
    ensures { result ≡ depth_limit }
{
    2203
}

fn add_records(
    alloc: Global,
    cursor: &mut KeyCursor<'_>,
    depth: u32,
    count: u32,
    records: &mut Items<Items<Ty>>,
) -> Result<(), ReadEnd>
    ensures { Joins (map value_type) (read_members (read_list (type_reader depth)) count) records.old records.new (left cursor.old) (left cursor.new) result }
{
    for _ in 0..count {
        let fields = read_types(alloc, cursor, depth)?;
        records.push(fields)?;
    }
    Ok(())
}

/// Reads the types of the fields of each record.
fn read_records(
    alloc: Global,
    cursor: &mut KeyCursor<'_>,
    depth: u32,
) -> Result<Items<Items<Ty>>, ReadEnd>
    ensures { Reads (map (map value_type)) (read_list (read_list (type_reader depth))) (left cursor.old) (left cursor.new) result }
{
    let count = cursor.read_count()?;
    let mut records = Items::new(alloc);
    add_records(alloc, cursor, depth, count, &mut records)?;
    Ok(records)
}

/// Reads a leg, of so many parts one inside another at most.
fn read_leg(alloc: Global, cursor: &mut KeyCursor<'_>, depth: u32) -> Result<Leg, ReadEnd>
    ensures { Reads leg_tree (leg_reader depth) (left cursor.old) (left cursor.new) result }
{
    let first = cursor.read_byte()?;
    if first != PROFILE {
        return Err(ReadEnd::NotKey);
    }
    let (records, vars, items) = all_three(
        read_records(alloc, cursor, depth),
        read_types(alloc, cursor, depth),
        read_items(alloc, cursor, depth),
    )?;
    Ok(Leg {
        records,
        vars,
        items,
    })
}

/// The leg, where nothing is left behind it.
fn whole(leg: Leg, is_whole: bool) -> Option<Leg>
    ensures { result ≡ (if is_whole then Some leg else None) }
{
    if is_whole { Some(leg) } else { None }
}

/// Bytes that are no key have no leg.
fn refused(end: ReadEnd) -> Result<Option<Leg>, NoMemory>
    ensures { IfOk result (λ leg. (end ≡ NotKey) × (leg ≡ None)) }
{
    match end {
        ReadEnd::NotKey => Ok(None),
        ReadEnd::NoMemory => Err(AllocError),
    }
}

/// The leg of these bytes, where they are the key of one that is no deeper than a well-formed leg can be.
pub fn read_key(alloc: Global, key: &[u8]) -> Result<Option<Leg>, NoMemory>
    ensures { IfOk result (λ leg. option_map leg_tree leg ≡ decode_within depth_limit key.now) }
{
    let depth = deepest();
    let mut cursor = KeyCursor::new(key);
    match read_leg(alloc, &mut cursor, depth) {
        Ok(leg) => Ok(whole(leg, cursor.is_at_end())),
        Err(end) => refused(end),
    }
}
