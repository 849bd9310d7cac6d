ghost use Rattle.std.specs.Prelude.{◌≡◌, ◌↔◌, IfOk, IsTrue, Some, length};
ghost use Rattle.std.specs.Option.{option_map};
ghost use Rattle.type_rules.specs.Records as rule;
ghost use Rattle.text_types.specs.TextType.{text_value};
ghost use Rattle.record_parts.specs.Chains.{any_leads, fields_seen, first_leads, leads_after, leads_by, looked, next_leads, types_seen};

use crate::NoMemory;
use sqlite_items::Items;
use std::alloc::Global;
use text_types::{ElementType, TextType};

/// The record that elements of a sequence name.
fn element_named(ty: ElementType) -> Option<u32>
    ensures { result ≡ rule.record_named (Some (text_value (TextType.Sequence ty))) }
{
    match ty {
        ElementType::Z | ElementType::B => None,
        ElementType::Record(number) => Some(number),
    }
}

/// The record that a type names.
fn type_named(ty: TextType) -> Option<u32>
    ensures { result ≡ rule.record_named (Some (text_value ty)) }
{
    match ty {
        TextType::Unit | TextType::Z | TextType::B => None,
        TextType::Record(number) => Some(number),
        TextType::Sequence(element) => element_named(element),
    }
}

/// The record that the type of a field names, itself or as the elements of a sequence.
pub fn record_named(ty: Option<TextType>) -> Option<u32>
    ensures { result ≡ rule.record_named (option_map text_value ty) }
{
    match ty {
        None => None,
        Some(ty) => type_named(ty),
    }
}

/// What a table of the records that lead to record n says of a record. One that is not there leads to itself alone.
fn looked(table: &[bool], n: usize, number: u32) -> bool
    ensures { result ≡ looked table.now n number }
{
    let number = number as usize;
    match table.get(number) {
        None => number == n,
        Some(leads) => *leads,
    }
}

/// Whether a field of that type leads to record n, by a table of the records that do.
pub fn leads(table: &[bool], n: usize, ty: Option<TextType>) -> bool
    ensures { result ≡ leads_by table.now n (option_map text_value ty) }
{
    match record_named(ty) {
        None => false,
        Some(number) => looked(table, n, number),
    }
}

/// Whether one of some fields does.
fn any_leads(table: &[bool], n: usize, fields: &[Option<TextType>]) -> bool
    ensures { result ≡ any_leads table.now n (fields_seen fields.now) }
{
    for ty in fields {
        if leads(table, n, *ty) {
            return true;
        }
    }
    false
}

/// The table of the records from which a chain of no fields leads to record n.
fn first_leads(
    alloc: Global,
    types: &[Items<Option<TextType>>],
    n: usize,
) -> Result<Items<bool>, NoMemory>
    ensures { IfOk result (λ table. table ≡ first_leads (types_seen types.now) n) }
{
    let mut table = Items::new(alloc);
    for (m, _fields) in types.iter().enumerate() {
        table.push(m == n)?;
    }
    Ok(table)
}

/// The table of those from which a chain leads there that may have one field more.
fn next_leads(
    alloc: Global,
    types: &[Items<Option<TextType>>],
    n: usize,
    table: &[bool],
) -> Result<Items<bool>, NoMemory>
    ensures { IfOk result (λ next. next ≡ next_leads table.now n (types_seen types.now)) }
{
    let mut next = Items::new(alloc);
    for (m, fields) in types.iter().enumerate() {
        let holds = m == n || any_leads(table, n, fields.as_slice());
        next.push(holds)?;
    }
    Ok(next)
}

fn same(a: &[bool], b: &[bool]) -> bool
    ensures { IsTrue result ↔ (a.now ≡ b.now) }
{
    a == b
}

/// The table of the records that lead to record n, whatever their chains.
pub fn leads_table(
    alloc: Global,
    types: &[Items<Option<TextType>>],
    n: usize,
) -> Result<Items<bool>, NoMemory>
    ensures { IfOk result (λ table. table ≡ leads_after (types_seen types.now) n (length types.now)) }
{
    let mut table = first_leads(alloc, types, n)?;
    for round in 0..types.len() {
        let next = next_leads(alloc, types, n, table.as_slice())?;
        if same(next.as_slice(), table.as_slice()) {
            return Ok(table);
        }
        table = next;
    }
    Ok(table)
}
