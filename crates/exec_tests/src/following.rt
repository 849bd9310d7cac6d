//! A leg followed to its end.

ghost use Rattle.sym_exec.specs.Steps.{IsReady};

use crate::readable::is_readable;
use lk_programs::{Kind, Leg};
use std::alloc::Global;
use std::test::Fail;
use sym_exec::{Exec, ExecEnd, Next};
use term_store::TermStore;

/// What a call gave: of a check its item and kind, and how many symbols and facts its sequent has, with its goal; of a proof its item, and how
/// many symbols and facts its base has, with how many steps stand outermost.
#[derive(Clone, Copy, PartialEq, Eq)]
pub enum Seen {
    Check(u32, Kind, usize, usize, usize),
    Proof(u32, usize, usize, usize),
    Done,
    Size(u32, Kind),
    NoMemory,
}

fn told(next: Result<Next, ExecEnd>) -> Seen {
    match next {
        Ok(
            Next::Check {
                item,
                kind,
                sequent,
            },
        ) => Seen::Check(
            item,
            kind,
            sequent.sorts.len(),
            sequent.facts.len(),
            sequent.goal,
        ),
        Ok(Next::Proof { item, base, steps }) => {
            Seen::Proof(item, base.sorts.len(), base.facts.len(), steps.len())
        }
        Ok(Next::Done) => Seen::Done,
        Err(ExecEnd::Size { item, kind }) => Seen::Size(item, kind),
        Err(ExecEnd::NoMemory) => Seen::NoMemory,
    }
}

/// What the next calls give, so many of them.
fn add_calls(
    alloc: Global,
    leg: &Leg,
    store: &mut TermStore,
    exec: &mut Exec,
    calls: u32,
    all: &mut Vec<(Seen, usize)>,
) -> Result<(), Fail>
    requires { IsReady store.old exec.old leg.now }
{
    for _ in 0..calls {
        let next = exec.next(alloc, leg, store);
        all.push((told(next), store.len()))?;
    }
    Ok(())
}

/// What so many calls give, each with how many trees the store has then.
pub(crate) fn follow(
    alloc: Global,
    leg: &Leg,
    store: &mut TermStore,
    calls: u32,
) -> Result<Vec<(Seen, usize)>, Fail> {
    if !is_readable(leg) {
        return Err(Fail::from("a leg that cannot be followed"));
    }
    let mut exec = Exec::new(alloc, leg)?;
    let mut all = Vec::new(alloc);
    add_calls(alloc, leg, store, &mut exec, calls, &mut all)?;
    Ok(all)
}
