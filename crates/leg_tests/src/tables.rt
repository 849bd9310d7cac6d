//! How many legs there are, and what they hold.

use crate::calls::calling;
use crate::programs::branching;
use legs::{LegsEnd, legs_of};
use lk_programs::Legs;
use std::alloc::Global;
use std::test::Fail;

/// How many branches there are, how many legs then, and whether they are too many.
const COUNTS: [(u32, u64, bool); 7] = [
    (0, 1, false),
    (1, 2, false),
    (8, 256, false),
    (9, 512, true),
    (63, 9_223_372_036_854_775_808, true),
    (64, 18_446_744_073_709_551_615, true),
    (70, 18_446_744_073_709_551_615, true),
];

/// Each leg has one variable, an assumption for each branch and the Ensures, and a node for each of these.
fn has_all(legs: &Legs, branches: u32, count: u64) -> bool {
    let items = branches as usize + 1;
    legs.legs.len() as u64 == count
        && legs
            .nodes
            .as_slice()
            .iter()
            .all(|nodes| nodes.len() == items)
        && legs
            .legs
            .as_slice()
            .iter()
            .all(|leg| leg.vars.len() == 1 && leg.items.len() == items)
}

fn holds(alloc: Global, branches: u32, count: u64, many: bool) -> Result<bool, Fail> {
    let typed = branching(alloc, branches)?;
    match legs_of(alloc, &typed, 0) {
        Ok(legs) => Ok(!many && has_all(&legs, branches, count)),
        Err(LegsEnd::Many { count: told }) => Ok(many && told == count),
        Err(LegsEnd::NoMemory) => Ok(false),
    }
}

/// The first row that does not hold.
fn first_wrong(alloc: Global) -> Result<Option<usize>, Fail> {
    for (row, (branches, count, many)) in COUNTS.iter().enumerate() {
        if !holds(alloc, *branches, *count, *many)? {
            return Ok(Some(row));
        }
    }
    Ok(None)
}

#[test]
fn legs_are_counted(rt: HostRuntime) -> Result<(), Fail> {
    let wrong = first_wrong(rt.alloc())?;
    assert!(rt; wrong.is_none());
    Ok(())
}

/// The method, and how many items and variables its one leg has.
const ALONE: [(u32, usize, usize); 2] = [
    // the global is set to what it was, and 1
    (0, 1, 1),
    // the parameter is set to the argument, and the global has any value
    (1, 2, 3),
];

/// The first method that does not have one leg of so many items and variables.
fn wrong_alone(alloc: Global) -> Result<Option<usize>, Fail> {
    let typed = calling(alloc)?;
    for (row, (method, items, variables)) in ALONE.iter().enumerate() {
        if *method >= 2 {
            return Ok(Some(row));
        }
        match legs_of(alloc, &typed, *method) {
            Ok(legs) => {
                if !is_alone(&legs, *items, *variables) {
                    return Ok(Some(row));
                }
            }
            Err(_) => return Ok(Some(row)),
        }
    }
    Ok(None)
}

fn is_alone(legs: &Legs, items: usize, variables: usize) -> bool {
    legs.legs.len() == 1
        && legs.nodes.len() == 1
        && legs.legs.as_slice().iter().all(|leg| leg.items.len() == items
            && leg.vars.len() == variables)
        && legs
            .nodes
            .as_slice()
            .iter()
            .all(|nodes| nodes.len() == items)
}

#[test]
fn calls_and_assignments(rt: HostRuntime) -> Result<(), Fail> {
    let wrong = wrong_alone(rt.alloc())?;
    assert!(rt; wrong.is_none());
    Ok(())
}
