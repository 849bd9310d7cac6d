//! A leg of `val`s of which each is the one before twice.

ghost use Rattle.std.specs.Prelude.{◌<◌, ◌-◌, ◌^◌};

use crate::following::{Seen, follow};
use lk_claims::{Claim, Ty};
use lk_programs::{Item, Kind, Leg};
use slang_values::Binary;
use sqlite_items::Items;
use std::alloc::Global;
use std::test::Fail;
use term_store::TermStore;

fn add_double(
    alloc: Global,
    vars: &mut Items<Ty>,
    items: &mut Items<Item>,
    x: u32,
) -> Result<(), Fail>
    requires { x < 2 ^ 32 - 1 }
{
    vars.push(Ty::B)?;
    let twice = Claim::binary(alloc, Binary::And, Claim::Var(x), Claim::Var(x))?;
    items.push(Item::Set(x + 1, twice))?;
    Ok(())
}

fn add_doubles(
    alloc: Global,
    vars: &mut Items<Ty>,
    items: &mut Items<Item>,
    count: u32,
) -> Result<(), Fail> {
    vars.push(Ty::B)?;
    for x in 0..count {
        add_double(alloc, vars, items, x)?;
    }
    Ok(())
}

/// `p`, and then so many `val`s: a1 = p & p, a2 = a1 & a1 and so on.
fn doubling(alloc: Global, count: u32) -> Result<Leg, Fail> {
    let mut leg = Leg {
        records: Items::new(alloc),
        vars: Items::new(alloc),
        items: Items::new(alloc),
    };
    add_doubles(alloc, &mut leg.vars, &mut leg.items, count)?;
    Ok(leg)
}

/// What each of three calls gives, and the trees of the store then.
fn after_all(alloc: Global, count: u32) -> Result<Vec<(Seen, usize)>, Fail> {
    let leg = doubling(alloc, count)?;
    let mut store = TermStore::new(alloc);
    follow(alloc, &leg, &mut store, 3)
}

#[test]
fn thirteen_are_fourteen_trees(rt: HostRuntime) -> Result<(), Fail> {
    let all = after_all(rt.alloc(), 13)?;
    let due = [(Seen::Done, 14), (Seen::Done, 14), (Seen::Done, 14)];
    assert!(rt; all.as_slice() == due.as_slice());
    Ok(())
}

#[test]
fn the_fourteenth_is_past_the_limit(rt: HostRuntime) -> Result<(), Fail> {
    let all = after_all(rt.alloc(), 15)?;
    let size = Seen::Size(13, Kind::Term);
    let due = [(size, 15), (size, 15), (size, 15)];
    assert!(rt; all.as_slice() == due.as_slice());
    Ok(())
}
