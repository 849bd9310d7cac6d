ghost use Rattle.std.specs.Prelude.{map};
ghost use Rattle.key_rules.specs.Codes.{checked_kinds, kind_code, of_assume, of_check, of_fresh, of_proof, of_set};
ghost use Rattle.key_rules.specs.Reading.{item_behind, read_claim as reader_of_claims, read_item as item_reader, read_step as step_reader};
ghost use Rattle.key_rules.specs.Readers.{read_coded, read_list, read_members};
ghost use Rattle.key_cursor.specs.Reads.{Joins, Reads, itself, left};
ghost use Rattle.lk_programs.specs.LegData.{item_tree};
ghost use Rattle.key_reader.specs.Heads.{item_head_data};

use crate::codes::{ItemHead, item_head, kind};
use crate::steps::read_steps;
use claim_reader::read_claim;
use key_cursor::{KeyCursor, ReadEnd, read_numbers};
use lk_programs::Item;
use program_trees::Kind;
use sqlite_items::Items;
use std::alloc::Global;

/// Reads an item, of so many parts one inside another at most.
fn read_item(alloc: Global, cursor: &mut KeyCursor<'_>, depth: u32) -> Result<Item, ReadEnd>
    ensures { Reads item_tree (item_reader depth) (left cursor.old) (left cursor.new) result }
{
    let byte = cursor.read_byte()?;
    match item_head(byte) {
        Some(head) => read_behind(alloc, cursor, depth, head),
        None => Err(ReadEnd::NotKey),
    }
}

/// Reads what follows the first byte of an item.
fn read_behind(
    alloc: Global,
    cursor: &mut KeyCursor<'_>,
    depth: u32,
    head: ItemHead,
) -> Result<Item, ReadEnd>
    ensures { Reads item_tree (item_behind (reader_of_claims depth) (step_reader depth) (item_head_data head)) (left cursor.old) (left cursor.new) result }
{
    match head {
        ItemHead::Assume => read_assume(alloc, cursor, depth),
        ItemHead::Check => read_check(alloc, cursor, depth),
        ItemHead::Set => read_set(alloc, cursor, depth),
        ItemHead::Fresh => read_fresh(alloc, cursor, depth),
        ItemHead::Proof => read_proof(alloc, cursor, depth),
    }
}

fn read_assume(alloc: Global, cursor: &mut KeyCursor<'_>, depth: u32) -> Result<Item, ReadEnd>
    ensures { Reads item_tree (item_behind (reader_of_claims depth) (step_reader depth) of_assume) (left cursor.old) (left cursor.new) result }
{
    let claim = read_claim(alloc, cursor, depth)?;
    Ok(Item::Assume(claim))
}

fn read_kind(cursor: &mut KeyCursor<'_>) -> Result<Kind, ReadEnd>
    ensures { Reads itself (read_coded kind_code checked_kinds) (left cursor.old) (left cursor.new) result }
{
    let byte = cursor.read_byte()?;
    match kind(byte) {
        Some(kind) => Ok(kind),
        None => Err(ReadEnd::NotKey),
    }
}

fn read_check(alloc: Global, cursor: &mut KeyCursor<'_>, depth: u32) -> Result<Item, ReadEnd>
    ensures { Reads item_tree (item_behind (reader_of_claims depth) (step_reader depth) of_check) (left cursor.old) (left cursor.new) result }
{
    let kind = read_kind(cursor)?;
    let claim = read_claim(alloc, cursor, depth)?;
    Ok(Item::Check(kind, claim))
}

fn read_set(alloc: Global, cursor: &mut KeyCursor<'_>, depth: u32) -> Result<Item, ReadEnd>
    ensures { Reads item_tree (item_behind (reader_of_claims depth) (step_reader depth) of_set) (left cursor.old) (left cursor.new) result }
{
    let variable = cursor.read_number()?;
    let claim = read_claim(alloc, cursor, depth)?;
    Ok(Item::Set(variable, claim))
}

fn read_fresh(alloc: Global, cursor: &mut KeyCursor<'_>, depth: u32) -> Result<Item, ReadEnd>
    ensures { Reads item_tree (item_behind (reader_of_claims depth) (step_reader depth) of_fresh) (left cursor.old) (left cursor.new) result }
{
    let variables = read_numbers(alloc, cursor)?;
    Ok(Item::Fresh(variables))
}

fn read_proof(alloc: Global, cursor: &mut KeyCursor<'_>, depth: u32) -> Result<Item, ReadEnd>
    ensures { Reads item_tree (item_behind (reader_of_claims depth) (step_reader depth) of_proof) (left cursor.old) (left cursor.new) result }
{
    let steps = read_steps(alloc, cursor, depth)?;
    Ok(Item::Proof(steps))
}

fn add_items(
    alloc: Global,
    cursor: &mut KeyCursor<'_>,
    depth: u32,
    count: u32,
    items: &mut Items<Item>,
) -> Result<(), ReadEnd>
    ensures { Joins item_tree (read_members (item_reader depth) count) items.old items.new (left cursor.old) (left cursor.new) result }
{
    for _ in 0..count {
        let item = read_item(alloc, cursor, depth)?;
        items.push(item)?;
    }
    Ok(())
}

/// Reads a list of items.
pub(crate) fn read_items(
    alloc: Global,
    cursor: &mut KeyCursor<'_>,
    depth: u32,
) -> Result<Items<Item>, ReadEnd>
    ensures { Reads (map item_tree) (read_list (item_reader depth)) (left cursor.old) (left cursor.new) result }
{
    let count = cursor.read_count()?;
    let mut items = Items::new(alloc);
    add_items(alloc, cursor, depth, count, &mut items)?;
    Ok(items)
}
