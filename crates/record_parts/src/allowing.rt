ghost use Rattle.std.specs.Prelude.{◌≡◌, [], IfOk, get_or};
ghost use Rattle.record_parts.specs.Chains.{fields_seen, types_seen};
ghost use Rattle.record_parts.specs.Parts.{allowed_fields, allowed_from};

use crate::NoMemory;
use crate::holding::{all_back, all_held, told_at};
use crate::parts::{parts_table, with_field};
use sqlite_items::Items;
use std::alloc::Global;
use text_types::TextType;

/// Which fields of a record may be of their types, by the parts of each record, whether this one holds itself, and which of its
/// fields lead back to it.
fn allowed_in(
    alloc: Global,
    parts: &[u32],
    held: bool,
    backs: &[bool],
    fields: &[Option<TextType>],
) -> Result<Items<bool>, NoMemory>
    ensures { IfOk result (λ allowed. allowed ≡ allowed_from parts.now held backs.now 0 0 (fields_seen fields.now)) }
{
    let mut allowed = Items::new(alloc);
    let mut sum = 0;
    for (k, ty) in fields.iter().enumerate() {
        let more = with_field(sum, parts, *ty);
        let holds = !told_at(backs, k) && (held || !(sum <= 1000 && 1000 < more));
        allowed.push(holds)?;
        sum = more;
    }
    Ok(allowed)
}

fn backs_of(backs: &[Items<bool>], n: usize) -> &[bool]
    ensures { result.now ≡ get_or backs.now n [] }
{
    match backs.get(n) {
        None => &[],
        Some(own) => own.as_slice(),
    }
}

/// Which fields of each record may be of their types.
pub fn allowed_fields(
    alloc: Global,
    types: &[Items<Option<TextType>>],
) -> Result<Items<Items<bool>>, NoMemory>
    ensures { IfOk result (λ allowed. allowed ≡ allowed_fields (types_seen types.now)) }
{
    let backs = all_back(alloc, types)?;
    let held = all_held(alloc, backs.as_slice())?;
    let parts = parts_table(alloc, types, held.as_slice())?;
    let mut allowed = Items::new(alloc);
    for (n, fields) in types.iter().enumerate() {
        let holds_itself = told_at(held.as_slice(), n);
        let own = allowed_in(
            alloc,
            parts.as_slice(),
            holds_itself,
            backs_of(backs.as_slice(), n),
            fields.as_slice(),
        )?;
        allowed.push(own)?;
    }
    Ok(allowed)
}
