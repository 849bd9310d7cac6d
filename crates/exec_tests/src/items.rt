//! One leg with an item of each kind.

use crate::following::{Seen, follow};
use lk_claims::{Claim, Ty};
use lk_programs::{Item, Kind, Leg};
use slang_values::{Binary, Unary};
use sqlite_items::Items;
use std::alloc::{AllocError as NoMemory, Global};
use std::test::Fail;
use term_store::TermStore;

fn of_two(alloc: Global, op: Binary, x: u32, y: u32) -> Result<Claim, NoMemory> {
    Claim::binary(alloc, op, Claim::Var(x), Claim::Var(y))
}

fn add_check(
    alloc: Global,
    items: &mut Items<Item>,
    kind: Kind,
    x: u32,
    y: u32,
) -> Result<(), NoMemory> {
    items.push(Item::Check(kind, of_two(alloc, Binary::Le, x, y)?))
}

fn add_set(
    alloc: Global,
    items: &mut Items<Item>,
    op: Binary,
    x: u32,
    y: u32,
) -> Result<(), NoMemory> {
    items.push(Item::Set(x, of_two(alloc, op, x, y)?))
}

fn add_not(alloc: Global, items: &mut Items<Item>, x: u32) -> Result<(), NoMemory> {
    let not = Claim::unary(alloc, Unary::Not, Claim::Var(x))?;
    items.push(Item::Check(Kind::Requires, not))
}

/// Assume x <= y; Check !b; Set x (x + y); Check y <= x; Fresh y, b, y; Check x <= y; Set b (b & b); Check b.
fn add_items(alloc: Global, items: &mut Items<Item>) -> Result<(), NoMemory> {
    items.push(Item::Assume(of_two(alloc, Binary::Le, 0, 1)?))?;
    add_not(alloc, items, 2)?;
    add_set(alloc, items, Binary::Add, 0, 1)?;
    add_check(alloc, items, Kind::Assert, 1, 0)?;
    items.push(Item::Fresh(Items::from_slice(alloc, &[1, 2, 1])?))?;
    add_check(alloc, items, Kind::InvKept, 0, 1)?;
    add_set(alloc, items, Binary::And, 2, 2)?;
    items.push(Item::Check(Kind::Ensures, Claim::Var(2)))
}

fn add_variables(vars: &mut Items<Ty>) -> Result<(), NoMemory> {
    vars.push(Ty::Z)?;
    vars.push(Ty::Z)?;
    vars.push(Ty::B)
}

fn add_all(alloc: Global, leg: &mut Leg) -> Result<(), NoMemory> {
    add_variables(&mut leg.vars)?;
    add_items(alloc, &mut leg.items)
}

fn leg(alloc: Global) -> Result<Leg, Fail> {
    let mut leg = Leg {
        records: Items::new(alloc),
        vars: Items::new(alloc),
        items: Items::new(alloc),
    };
    add_all(alloc, &mut leg)?;
    Ok(leg)
}

fn of_all(alloc: Global) -> Result<Vec<(Seen, usize)>, Fail> {
    let leg = leg(alloc)?;
    let mut store = TermStore::new(alloc);
    follow(alloc, &leg, &mut store, 6)
}

/// The trees in their order: s0, s1, s0 <= s1, s2, !s2, s0 + s1, s1 <= s0 + s1, s3, s4, s5, s0 + s1 <= s5, s4 & s4.
#[test]
fn each_kind_of_item(rt: HostRuntime) -> Result<(), Fail> {
    let all = of_all(rt.alloc())?;
    let due = [
        (Seen::Check(1, Kind::Requires, 3, 1, 4), 5),
        (Seen::Check(3, Kind::Assert, 3, 2, 6), 7),
        (Seen::Check(5, Kind::InvKept, 6, 3, 10), 11),
        (Seen::Check(7, Kind::Ensures, 6, 4, 11), 12),
        (Seen::Done, 12),
        (Seen::Done, 12),
    ];
    assert!(rt; all.as_slice() == due.as_slice());
    Ok(())
}
