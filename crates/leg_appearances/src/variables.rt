ghost use Rattle.std.specs.Prelude.{◌≡◌, map};
ghost use Rattle.slang_values.specs.Value.{is_element_type as element_form};
ghost use Rattle.lk_claims.specs.Claim.{value_type};
ghost use Rattle.record_checks.specs.Numbers.{with_number};
ghost use Rattle.leg_appearances.specs.Seen.{after_front, after_record, after_variable, after_variables, type_brings, with_records};

use lk_claims::Ty;
use record_checks::{Summary, with_record, with_type};

/// How many variables and records have appeared.
#[derive(Clone, Copy)]
pub struct Seen {
    pub variables: usize,
    pub records: usize,
}

fn next_variable(count: usize, seen: usize, number: usize) -> Option<usize>
    ensures { result ≡ with_number count seen number }
{
    if number < seen {
        return Some(seen);
    }
    if number == seen && number < count {
        return Some(seen + 1);
    }
    None
}

/// The records that the type of a variable brings.
fn with_variable_type(
    table: &[Summary],
    vars: &[Ty],
    records: usize,
    number: usize,
) -> Option<usize>
    ensures { result ≡ type_brings table.now (map value_type vars.now) records number }
{
    match vars.get(number) {
        Some(ty) => with_type(table, records, ty),
        None => Some(records),
    }
}

fn seen_with(variables: usize, records: Option<usize>) -> Option<Seen>
    ensures { result ≡ with_records variables records }
{
    match records {
        Some(records) => Some(Seen { variables, records }),
        None => None,
    }
}

/// A variable appears, and with it the records of its type.
pub fn with_variable(table: &[Summary], vars: &[Ty], seen: Seen, number: u32) -> Option<Seen>
    ensures { result ≡ after_variable table.now (map value_type vars.now) seen number }
{
    match next_variable(vars.len(), seen.variables, number as usize) {
        Some(variables) => {
            let records = with_variable_type(table, vars, seen.records, number as usize);
            seen_with(variables, records)
        }
        None => None,
    }
}

pub fn with_variables(table: &[Summary], vars: &[Ty], seen: Seen, numbers: &[u32]) -> Option<Seen>
    ensures { result ≡ after_variables table.now (map value_type vars.now) seen numbers.now }
{
    let mut so_far = seen;
    for number in numbers {
        match with_variable(table, vars, so_far, *number) {
            Some(next) => so_far = next,
            None => return None,
        }
    }
    Some(so_far)
}

#[tactic(auto, using(lk_claims::proofs::Types::type_lines))]
fn is_element_type(ty: &Ty) -> bool
    ensures { result ≡ element_form (value_type ty.now) }
{
    match ty {
        Ty::Unit => false,
        Ty::Z => true,
        Ty::B => true,
        Ty::Seq(_) => false,
        Ty::Rec(_) => true,
    }
}

/// The type of the elements of a sequence appears in front of them.
pub fn with_front(table: &[Summary], seen: Seen, ty: &Ty) -> Option<Seen>
    ensures { result ≡ after_front table.now seen (value_type ty.now) }
{
    if !is_element_type(ty) {
        return None;
    }
    seen_with(seen.variables, with_type(table, seen.records, ty))
}

/// A record appears in front of its fields.
pub fn with_record_front(table: &[Summary], seen: Seen, number: u32) -> Option<Seen>
    ensures { result ≡ after_record table.now seen number }
{
    seen_with(
        seen.variables,
        with_record(table, seen.records, number as usize),
    )
}
