ghost use Rattle.std.specs.Prelude.{◌≡◌, ◌<◌, ◌^◌, IfOk, map};
ghost use Rattle.std.specs.Result.{OkIff};
ghost use Rattle.lk_claims.specs.Claim.{value_type};
ghost use Rattle.leg_items.specs.Names.{leg_name};
ghost use Rattle.leg_numbers.specs.Numbered.{name_number, numbered_type, record_number};

use crate::NoMemory;
use leg_items::Name;
use leg_orders::Order;
use lk_claims::Ty;
use sqlite_items::{Boxed, Items};
use std::alloc::{AllocError, Global};

/// A place in an order as a number, where there is one.
fn number(place: usize) -> Result<u32, NoMemory>
    ensures { OkIff result (place < 2 ^ 32) place }
{
    u32::try_from(place).map_err(|_| AllocError)
}

/// The place of a variable in the order, or 0.
pub(crate) fn number_of_name(order: &Order, name: Name) -> Result<u32, NoMemory>
    ensures { IfOk result (λ n. n ≡ name_number order.now (leg_name name)) }
{
    let names = order.names.as_slice();
    for place in 0..names.len() {
        if name.same(names[place]) {
            return number(place);
        }
    }
    Ok(0)
}

/// The place of a record in the order, or 0.
pub(crate) fn number_of_record(order: &Order, wanted: u32) -> Result<u32, NoMemory>
    ensures { IfOk result (λ n. n ≡ record_number order.now wanted) }
{
    let records = order.records.as_slice();
    for place in 0..records.len() {
        if wanted == records[place] {
            return number(place);
        }
    }
    Ok(0)
}

/// The type over the numbers of records.
#[tactic(auto, using(lk_claims::proofs::Types::type_lines))]
pub(crate) fn type_numbered(alloc: Global, order: &Order, ty: &Ty) -> Result<Ty, NoMemory>
    ensures { IfOk result (λ t. value_type t ≡ numbered_type order.now (value_type ty.now)) }
{
    match ty {
        Ty::Unit => Ok(Ty::Unit),
        Ty::Z => Ok(Ty::Z),
        Ty::B => Ok(Ty::B),
        Ty::Seq(element) => Ok(Ty::Seq(Boxed::new(
            alloc,
            type_numbered(alloc, order, element.get())?,
        )?)),
        Ty::Rec(record) => Ok(Ty::Rec(number_of_record(order, *record)?)),
    }
}

/// The numbers of variables.
pub(crate) fn names_numbered(
    alloc: Global,
    order: &Order,
    names: &[Name],
) -> Result<Items<u32>, NoMemory>
    ensures { IfOk result (λ numbers. numbers ≡ map (name_number order.now) (map leg_name names.now)) }
{
    let mut numbers = Items::new(alloc);
    for name in names {
        numbers.push(number_of_name(order, *name)?)?;
    }
    Ok(numbers)
}
