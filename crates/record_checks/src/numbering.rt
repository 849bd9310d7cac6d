ghost use Rattle.std.specs.Prelude.{◌≡◌};
ghost use Rattle.lk_claims.specs.Claim.{value_type};
ghost use Rattle.record_checks.specs.Summaries.{none_there as none_is_there, number_with, numbers_with};

use crate::summary::{Summary, named};
use lk_claims::Ty;

/// Where there are no records, none is brought.
fn none_there(table: &[Summary], seen: usize) -> Option<usize>
    ensures { result ≡ none_is_there table.now seen }
{
    match table {
        [] => Some(seen),
        [_, ..] => None,
    }
}

/// Where the records below this number have appeared: below which number they have when this one and those inside it have too, where this
/// keeps the order.
pub fn with_record(table: &[Summary], seen: usize, number: usize) -> Option<usize>
    ensures { result ≡ number_with table.now seen number }
{
    if number < seen {
        return Some(seen);
    }
    match table.get(number) {
        Some(summary) => {
            if summary.first <= seen {
                Some(number + 1)
            } else {
                None
            }
        }
        None => none_there(table, seen),
    }
}

/// The same with the records of a type.
pub fn with_type(table: &[Summary], seen: usize, ty: &Ty) -> Option<usize>
    ensures { result ≡ numbers_with table.now seen (value_type ty.now) }
{
    match named(ty) {
        Some(number) => with_record(table, seen, number as usize),
        None => Some(seen),
    }
}
