//! A leg with a proof.

use crate::following::{Seen, follow};
use lk_claims::{Claim, ProofStep, Ty};
use lk_programs::{Item, Kind, Leg};
use slang_values::Binary;
use sqlite_items::Items;
use std::alloc::{AllocError as NoMemory, Global};
use std::test::Fail;
use term_store::TermStore;

fn at_most(alloc: Global, a: Claim, b: Claim) -> Result<Claim, NoMemory> {
    Claim::binary(alloc, Binary::Le, a, b)
}

fn add_line(
    alloc: Global,
    steps: &mut Items<ProofStep>,
    label: u32,
    x: u32,
    y: u32,
) -> Result<(), NoMemory> {
    let claim = at_most(alloc, Claim::Var(x), Claim::Var(y))?;
    steps.push(ProofStep::Line {
        label,
        claim,
        rule: 0,
        cites: Items::new(alloc),
    })
}

/// A block with a `Let`, which assumes that its symbol is at most x, and has no steps.
fn add_block(alloc: Global, steps: &mut Items<ProofStep>, label: u32) -> Result<(), NoMemory> {
    let assumption = at_most(alloc, Claim::LetSym(label), Claim::Var(0))?;
    steps.push(ProofStep::Sub {
        label,
        bind: true,
        assumed: label,
        assumption,
        steps: Items::new(alloc),
    })
}

fn add_steps(alloc: Global, steps: &mut Items<ProofStep>) -> Result<(), NoMemory> {
    add_line(alloc, steps, 1, 0, 1)?;
    add_block(alloc, steps, 2)?;
    add_line(alloc, steps, 3, 1, 0)
}

fn proof(alloc: Global) -> Result<Item, NoMemory> {
    let mut steps = Items::new(alloc);
    add_steps(alloc, &mut steps)?;
    Ok(Item::Proof(steps))
}

/// Assume x <= y; Proof of x <= y, a block and y <= x; Check x <= y.
fn add_items(alloc: Global, items: &mut Items<Item>) -> Result<(), NoMemory> {
    items.push(Item::Assume(at_most(alloc, Claim::Var(0), Claim::Var(1))?))?;
    items.push(proof(alloc)?)?;
    items.push(Item::Check(Kind::Assert, at_most(alloc, Claim::Var(0), Claim::Var(1))?))
}

fn add_all(alloc: Global, leg: &mut Leg) -> Result<(), NoMemory> {
    leg.vars.push(Ty::Z)?;
    leg.vars.push(Ty::Z)?;
    add_items(alloc, &mut leg.items)
}

fn of_all(alloc: Global) -> Result<Vec<(Seen, usize)>, Fail> {
    let mut leg = Leg {
        records: Items::new(alloc),
        vars: Items::new(alloc),
        items: Items::new(alloc),
    };
    add_all(alloc, &mut leg)?;
    let mut store = TermStore::new(alloc);
    follow(alloc, &leg, &mut store, 3)
}

/// The trees in their order: s0, s1, s0 <= s1, s2, s2 <= s0, s1 <= s0, T. Behind the proof its two lines are facts too.
#[test]
fn a_proof_and_a_check(rt: HostRuntime) -> Result<(), Fail> {
    let all = of_all(rt.alloc())?;
    let due = [
        (Seen::Proof(1, 3, 1, 3), 7),
        (Seen::Check(2, Kind::Assert, 3, 3, 2), 7),
        (Seen::Done, 7),
    ];
    assert!(rt; all.as_slice() == due.as_slice());
    Ok(())
}
