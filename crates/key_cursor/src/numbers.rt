ghost use Rattle.key_rules.specs.Readers.{read_list, read_members, read_number};
ghost use Rattle.key_cursor.specs.Reads.{Joins, Reads, itself, left};

use crate::cursor::KeyCursor;
use crate::end::ReadEnd;
use sqlite_items::Items;
use std::alloc::Global;

fn add_numbers(
    cursor: &mut KeyCursor<'_>,
    count: u32,
    numbers: &mut Items<u32>,
) -> Result<(), ReadEnd>
    ensures { Joins itself (read_members read_number count) numbers.old numbers.new (left cursor.old) (left cursor.new) result }
{
    for _ in 0..count {
        numbers.push(cursor.read_number()?)?;
    }
    Ok(())
}

/// Reads a list of numbers.
pub fn read_numbers(alloc: Global, cursor: &mut KeyCursor<'_>) -> Result<Items<u32>, ReadEnd>
    ensures { Reads itself (read_list read_number) (left cursor.old) (left cursor.new) result }
{
    let count = cursor.read_count()?;
    let mut numbers = Items::new(alloc);
    add_numbers(cursor, count, &mut numbers)?;
    Ok(numbers)
}
