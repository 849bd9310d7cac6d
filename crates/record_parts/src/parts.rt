ghost use Rattle.std.specs.Prelude.{◌≡◌, ◌≤◌, ◌↔◌, ◌+◌, IfOk, IsTrue, get_or, length};
ghost use Rattle.std.specs.Option.{option_map};
ghost use Rattle.text_types.specs.TextType.{text_value};
ghost use Rattle.record_parts.specs.Parts.{brought, capped, counted, first_parts, next_parts, parts_after, total};
ghost use Rattle.record_parts.specs.Chains.{fields_seen, types_seen};

use crate::NoMemory;
use crate::holding::told_at;
use sqlite_items::Items;
use std::alloc::Global;
use text_types::TextType;

/// How many parts a record has by a table of them, where more than 1,001 count as 1,001.
fn counted(parts: &[u32], number: u32) -> u32
    ensures { result ≡ counted parts.now number }
{
    match parts.get(number as usize) {
        None => 0,
        Some(count) => (*count).min(1001),
    }
}

/// How many parts a field brings: itself, and those of its record.
fn brought(parts: &[u32], ty: Option<TextType>) -> u32
    ensures is { result ≡ brought parts.now (option_map text_value ty) }
    ensures few { result ≤ 1002 }
{
    match ty {
        Some(TextType::Record(number)) => counted(parts, number) + 1,
        _ => 1,
    }
}

/// So many parts and those that a field brings.
pub fn with_field(sum: u32, parts: &[u32], ty: Option<TextType>) -> u32
    requires { sum ≤ 1001 }
    ensures { result ≡ capped (sum + brought parts.now (option_map text_value ty)) }
{
    (sum + brought(parts, ty)).min(1001)
}

/// How many parts fields have together.
fn total(parts: &[u32], fields: &[Option<TextType>]) -> u32
    ensures { result ≡ total parts.now 0 (fields_seen fields.now) }
{
    let mut sum = 0;
    for ty in fields {
        sum = with_field(sum, parts, *ty);
    }
    sum
}

fn first_parts(alloc: Global, types: &[Items<Option<TextType>>]) -> Result<Items<u32>, NoMemory>
    ensures { IfOk result (λ parts. parts ≡ first_parts (types_seen types.now)) }
{
    let mut parts = Items::new(alloc);
    for (m, _fields) in types.iter().enumerate() {
        parts.push(0)?;
    }
    Ok(parts)
}

/// The parts of each record through records one deeper. A record that holds itself counts as having none.
fn next_parts(
    alloc: Global,
    types: &[Items<Option<TextType>>],
    held: &[bool],
    parts: &[u32],
) -> Result<Items<u32>, NoMemory>
    ensures { IfOk result (λ next. next ≡ next_parts held.now parts.now (types_seen types.now)) }
{
    let mut next = Items::new(alloc);
    for (n, fields) in types.iter().enumerate() {
        let count = if told_at(held, n) {
            0
        } else {
            total(parts, fields.as_slice())
        };
        next.push(count)?;
    }
    Ok(next)
}

fn same(a: &[u32], b: &[u32]) -> bool
    ensures { IsTrue result ↔ (a.now ≡ b.now) }
{
    a == b
}

/// The parts of each record.
pub fn parts_table(
    alloc: Global,
    types: &[Items<Option<TextType>>],
    held: &[bool],
) -> Result<Items<u32>, NoMemory>
    ensures { IfOk result (λ parts. parts ≡ parts_after held.now (types_seen types.now) (length types.now)) }
{
    let mut parts = first_parts(alloc, types)?;
    for round in 0..types.len() {
        let next = next_parts(alloc, types, held, parts.as_slice())?;
        if same(next.as_slice(), parts.as_slice()) {
            return Ok(parts);
        }
        parts = next;
    }
    Ok(parts)
}
