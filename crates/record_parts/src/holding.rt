ghost use Rattle.std.specs.Prelude.{◌≡◌, IfOk, false, get_or, map};
ghost use Rattle.std.specs.List.{list_any};
ghost use Rattle.type_rules.specs.Records as rule;
ghost use Rattle.record_parts.specs.Chains.{all_back, all_held, any_back, fields_seen, leads_by, types_seen};

use crate::NoMemory;
use crate::chains::{leads, leads_table};
use sqlite_items::Items;
use std::alloc::Global;
use text_types::TextType;

/// Which of these fields lead to record n, by a table of the records that do.
fn back_by(
    alloc: Global,
    table: &[bool],
    n: usize,
    fields: &[Option<TextType>],
) -> Result<Items<bool>, NoMemory>
    ensures { IfOk result (λ backs. backs ≡ map (leads_by table.now n) (fields_seen fields.now)) }
{
    let mut backs = Items::new(alloc);
    for ty in fields {
        backs.push(leads(table, n, *ty))?;
    }
    Ok(backs)
}

/// Which of these fields of record n lead back to it.
fn back_fields(
    alloc: Global,
    types: &[Items<Option<TextType>>],
    n: usize,
    fields: &[Option<TextType>],
) -> Result<Items<bool>, NoMemory>
    ensures { IfOk result (λ backs. backs ≡ map (rule.leads_back (types_seen types.now) n) (fields_seen fields.now)) }
{
    let table = leads_table(alloc, types, n)?;
    let backs = back_by(alloc, table.as_slice(), n, fields)?;
    Ok(backs)
}

/// Which fields of each record lead back to it.
pub fn all_back(
    alloc: Global,
    types: &[Items<Option<TextType>>],
) -> Result<Items<Items<bool>>, NoMemory>
    ensures { IfOk result (λ backs. backs ≡ all_back (types_seen types.now)) }
{
    let mut backs = Items::new(alloc);
    for (n, fields) in types.iter().enumerate() {
        let own = back_fields(alloc, types, n, fields.as_slice())?;
        backs.push(own)?;
    }
    Ok(backs)
}

/// Whether a field leads back.
fn any_back(backs: &[bool]) -> bool
    ensures { result ≡ any_back backs.now }
{
    for back in backs {
        if *back {
            return true;
        }
    }
    false
}

/// Which records hold themselves.
pub fn all_held(alloc: Global, backs: &[Items<bool>]) -> Result<Items<bool>, NoMemory>
    ensures { IfOk result (λ held. held ≡ all_held backs.now) }
{
    let mut held = Items::new(alloc);
    for own in backs {
        held.push(any_back(own.as_slice()))?;
    }
    Ok(held)
}

/// What a table says at a place; false behind its end.
pub fn told_at(table: &[bool], at: usize) -> bool
    ensures { result ≡ get_or table.now at false }
{
    match table.get(at) {
        None => false,
        Some(told) => *told,
    }
}
