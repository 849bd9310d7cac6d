//! How large stored trees are, and terms of the greatest height.

use slang_values::Binary;
use sqlite_items::Boxed;
use std::alloc::Global;
use std::test::Fail;
use term_store::{Measure, Node, TermStore};
use term_trees::Term;

/// A symbol that was doubled so often: the count of trees, and the measure of the last.
fn doubled(alloc: Global, times: u32) -> Result<(usize, Measure), Fail> {
    let mut store = TermStore::new(alloc);
    let mut last = store.add_node(Node::Symbol(0))?;
    for _ in 0..times {
        if last >= store.len() {
            return Err(Fail::from("a number beyond the store"));
        }
        last = store.add_node(Node::Add(last, last))?;
    }
    if last >= store.len() {
        return Err(Fail::from("a number beyond the store"));
    }
    Ok((store.len(), store.measure(last)))
}

/// How often, and then the count of trees, of nodes and the height.
const DOUBLED: [(u32, usize, u32, u32); 4] = [
    (0, 1, 1, 1),
    (13, 14, 16383, 14),
    (31, 32, 4294967295, 32),
    (1200, 1201, 4294967295, 1201),
];

fn first_wrong(alloc: Global) -> Result<Option<usize>, Fail> {
    for (row, (times, count, nodes, height)) in DOUBLED.iter().enumerate() {
        let (trees, measure) = doubled(alloc, *times)?;
        if trees != *count || measure.nodes != *nodes || measure.height != *height {
            return Ok(Some(row));
        }
    }
    Ok(None)
}

#[test]
fn sizes_stop_at_the_greatest_u32(rt: HostRuntime) -> Result<(), Fail> {
    let wrong = first_wrong(rt.alloc())?;
    assert!(rt; wrong.is_none());
    Ok(())
}

/// `x + (x + (.. + x))`, of that height.
fn tower(alloc: Global, height: u32) -> Result<Boxed<Term>, Fail> {
    let mut whole = Boxed::new(alloc, Term::Symbol(0))?;
    for _ in 1..height {
        let next = Term::binary(alloc, Binary::Add, Term::Symbol(0), whole.into_inner())?;
        whole = Boxed::new(alloc, next)?;
    }
    Ok(whole)
}

/// The count of trees after two terms, of which the lower is a part of the higher.
fn towers(alloc: Global, low: u32, high: u32) -> Result<(usize, usize), Fail> {
    let mut store = TermStore::new(alloc);
    store.add(tower(alloc, high)?.get())?;
    let before = store.len();
    store.add(tower(alloc, low)?.get())?;
    Ok((before, store.len()))
}

#[test]
fn of_the_greatest_height(rt: HostRuntime) -> Result<(), Fail> {
    let (before, after) = towers(rt.alloc(), 1000, 2000)?;
    assert!(rt; before == 2000 && after == 2000);
    Ok(())
}
