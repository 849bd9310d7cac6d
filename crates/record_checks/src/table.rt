ghost use Rattle.std.specs.Prelude.{◌≡◌, IfOk, []};
ghost use Rattle.claim_types.specs.Views.{records_of};
ghost use Rattle.record_checks.specs.Summaries.{made, table_from};

use crate::NoMemory;
use crate::summary::{Summary, summary_of};
use lk_claims::Ty;
use sqlite_items::Items;
use std::alloc::Global;

/// Adds a summary of each record behind those of the table, and answers whether each is well formed.
fn add_records(records: &[Items<Ty>], table: &mut Items<Summary>) -> Result<bool, NoMemory>
    ensures { IfOk result (λ b. made b table.new ≡ table_from table.old (records_of records.now)) }
{
    for types in records {
        match summary_of(table.as_slice(), types.as_slice()) {
            Some(summary) => table.push(summary)?,
            None => return Ok(false),
        }
    }
    Ok(true)
}

/// A summary of each record, where each is well formed: its fields name records before it, and it has at most 1,000 parts.
pub fn record_table(
    alloc: Global,
    records: &[Items<Ty>],
) -> Result<Option<Items<Summary>>, NoMemory>
    ensures { IfOk result (λ table. table ≡ table_from [] (records_of records.now)) }
{
    let mut table = Items::new(alloc);
    if add_records(records, &mut table)? {
        Ok(Some(table))
    } else {
        Ok(None)
    }
}
