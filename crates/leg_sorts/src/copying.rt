ghost use Rattle.std.specs.Prelude.{◌≡◌, IfOk};

use crate::NoMemory;
use sqlite_items::Items;
use std::alloc::Global;
use term_trees::Sort;

/// The same sorts.
pub fn copy_sorts(alloc: Global, sorts: &[Sort]) -> Result<Items<Sort>, NoMemory>
    ensures { IfOk result (λ copies. copies ≡ sorts.now) }
{
    let mut copies = Items::new(alloc);
    for sort in sorts {
        copies.push(sort.copy(alloc)?)?;
    }
    Ok(copies)
}

/// The same sorts of the fields of records.
pub fn copy_records(alloc: Global, records: &[Items<Sort>]) -> Result<Items<Items<Sort>>, NoMemory>
    ensures { IfOk result (λ copies. copies ≡ records.now) }
{
    let mut copies = Items::new(alloc);
    for fields in records {
        copies.push(copy_sorts(alloc, fields.as_slice())?)?;
    }
    Ok(copies)
}
