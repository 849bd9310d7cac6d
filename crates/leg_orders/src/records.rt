ghost use Rattle.std.specs.Prelude.{◌≡◌, nat_eq, true, length, OnOk};
ghost use Rattle.std.specs.List.{flat_map, list_all};
ghost use Rattle.std.specs.Set.{is_member};
ghost use Rattle.slang_values.specs.Value.{ends_within, fields, record_type};
ghost use Rattle.lk_claims.specs.Claim.{value_type};
ghost use Rattle.lk_programs.specs.Program.{field_types, record_types};
ghost use Rattle.leg_rules.specs.Numbering.{with_new};
ghost use Rattle.leg_orders.specs.Places.{program_of};
ghost use Rattle.leg_orders.specs.Orders.{with_all_new};
ghost use Rattle.leg_orders.specs.Closed.{IsClosed, TypeEnds, records_of, type_ends};

use crate::NoMemory;
use crate::types::named_record;
use lk_claims::Ty;
use lk_programs::{FieldTy, Typed};
use sqlite_items::Items;

fn is_in(order: &[u32], number: u32) -> bool
    ensures { result ≡ is_member nat_eq order.now number }
{
    order.contains(&number)
}

fn push_new(order: &mut Items<u32>, number: u32) -> Result<(), NoMemory>
    ensures { OnOk result (order.new ≡ with_new nat_eq order.old number) }
{
    if is_in(order.as_slice(), number) {
        return Ok(());
    }
    order.push(number)
}

/// Adds a record behind those that it is made of, down to that depth. Where it is in the order, so are they.
#[cycle(records)]
fn add_record(
    depth: usize,
    typed: &Typed,
    number: u32,
    order: &mut Items<u32>,
) -> Result<(), NoMemory>
    requires closed { IsClosed (program_of typed.now) order.old }
    requires ends { ends_within (record_types typed.now.records) depth number ≡ true }
    ensures { OnOk result (order.new ≡ with_all_new order.old (records_of (program_of typed.now) depth (record_type number))) }
{
    if depth == 0 || is_in(order.as_slice(), number) {
        return Ok(());
    }
    add_parts(depth - 1, typed, number, order)?;
    push_new(order, number)
}

/// Adds the records that the fields of a record name.
#[cycle(records)]
#[tactic(auto, using(crate::proofs::FoundTypes::field_lines))]
fn add_parts(
    depth: usize,
    typed: &Typed,
    number: u32,
    order: &mut Items<u32>,
) -> Result<(), NoMemory>
    requires closed { IsClosed (program_of typed.now) order.old }
    requires ends { list_all (type_ends (record_types typed.now.records) depth) (fields (record_types typed.now.records) number) ≡ true }
    ensures { OnOk result (order.new ≡ with_all_new order.old (flat_map (records_of (program_of typed.now) depth) (fields (record_types typed.now.records) number))) }
{
    match typed.records.get(number as usize) {
        Some(record) => add_fields(depth, typed, record.fields.as_slice(), order),
        None => Ok(()),
    }
}

#[cycle(records)]
fn add_fields(
    depth: usize,
    typed: &Typed,
    parts: &[FieldTy],
    order: &mut Items<u32>,
) -> Result<(), NoMemory>
    requires closed { IsClosed (program_of typed.now) order.old }
    requires ends { list_all (type_ends (record_types typed.now.records) depth) (field_types parts.now) ≡ true }
    ensures { OnOk result (order.new ≡ with_all_new order.old (flat_map (records_of (program_of typed.now) depth) (field_types parts.now))) }
{
    for field in parts {
        add_type_within(depth, typed, &field.ty, order)?;
    }
    Ok(())
}

#[cycle(records)]
fn add_type_within(
    depth: usize,
    typed: &Typed,
    ty: &Ty,
    order: &mut Items<u32>,
) -> Result<(), NoMemory>
    requires closed { IsClosed (program_of typed.now) order.old }
    requires ends { TypeEnds (record_types typed.now.records) depth (value_type ty.now) }
    ensures { OnOk result (order.new ≡ with_all_new order.old (records_of (program_of typed.now) depth (value_type ty.now))) }
{
    match named_record(ty) {
        Some(number) => add_record(depth, typed, number, order),
        None => Ok(()),
    }
}

/// Adds a record behind those that it is made of, unless they are there.
pub(crate) fn add_record_type(
    typed: &Typed,
    number: u32,
    order: &mut Items<u32>,
) -> Result<(), NoMemory>
    requires { IsClosed (program_of typed.now) order.old }
    ensures { OnOk result (order.new ≡ with_all_new order.old (records_of (program_of typed.now) (length typed.now.records) (record_type number))) }
{
    let depth = typed.records.len();
    if depth == 0 {
        return Ok(());
    }
    add_record(depth, typed, number, order)
}

/// Adds the records that a type is made of, unless they are there.
pub(crate) fn add_type(typed: &Typed, ty: &Ty, order: &mut Items<u32>) -> Result<(), NoMemory>
    requires { IsClosed (program_of typed.now) order.old }
    ensures { OnOk result (order.new ≡ with_all_new order.old (records_of (program_of typed.now) (length typed.now.records) (value_type ty.now))) }
{
    match named_record(ty) {
        Some(number) => add_record_type(typed, number, order),
        None => Ok(()),
    }
}
