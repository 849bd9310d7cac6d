//! One quantified fact about the elements of a sequence, and facts that read the sequence at so many places.

ghost use Rattle.std.specs.Prelude.{◌≡◌, ◌+◌, ◌<◌, ◌≤◌, ◌^◌, length, true};
ghost use Rattle.std.specs.List.{All};
ghost use Rattle.slang_values.specs.Measure.{node_count};
ghost use Rattle.term_store.specs.Store.{tree_at};
ghost use Rattle.term_store.specs.Sequent.{IsSequentWithin};

use quant_inst::{InstEnd, instances_of};
use slang_values::{Binary, Quantifier};
use sqlite_items::{Boxed, Items};
use std::alloc::Global;
use std::test::Fail;
use term_store::{IdSequent, TermStore};
use term_trees::{Sort, Term};

/// What comes of instancing.
#[derive(Clone, Copy, Debug, PartialEq, Eq, Drop)]
enum Outcome {
    Facts(usize),
    TooMany,
    TooLarge,
    Nothing,
}

/// So many places, whether the last of them stands twice, and what comes of instancing.
const ROWS: [(i128, bool, Outcome); 6] = [
    (0, false, Outcome::Facts(1)),
    (1, false, Outcome::Facts(3)),
    (1, true, Outcome::Facts(4)),
    (63, false, Outcome::Facts(127)),
    (64, false, Outcome::Facts(129)),
    (65, false, Outcome::TooMany),
];

/// An element of the sequence, by its place.
fn element(alloc: Global, place: Term) -> Result<Term, Fail> {
    Ok(Term::binary(alloc, Binary::Read, Term::Symbol(0), place)?)
}

/// The element at the place is at most that number.
fn at_most(alloc: Global, place: Term, most: i128) -> Result<Term, Fail> {
    let element = element(alloc, place)?;
    Ok(Term::binary(alloc, Binary::Le, element, Term::Lit(most))?)
}

/// Each element is at most 5.
fn all_at_most(alloc: Global) -> Result<Term, Fail> {
    let body = at_most(alloc, Term::Bound(0), 5)?;
    Ok(Term::quantified(alloc, Quantifier::All, Term::Lit(0), Term::Lit(100), body)?)
}

fn add_facts(
    alloc: Global,
    store: &mut TermStore,
    facts: &mut Items<usize>,
    places: i128,
    twice: bool,
) -> Result<(), Fail> {
    let all = Boxed::new(alloc, all_at_most(alloc)?)?;
    facts.push(store.add(all.get())?)?;
    for place in 0..places {
        let fact = Boxed::new(alloc, at_most(alloc, Term::Lit(place), 7)?)?;
        facts.push(store.add(fact.get())?)?;
    }
    if twice {
        let fact = Boxed::new(alloc, at_most(alloc, Term::Lit(0), 8)?)?;
        facts.push(store.add(fact.get())?)?;
    }
    Ok(())
}

fn add_sort(alloc: Global, sorts: &mut Items<Sort>) -> Result<(), Fail> {
    sorts.push(Sort::Seq(Boxed::new(alloc, Sort::Z)?))?;
    Ok(())
}

fn sequent(
    alloc: Global,
    store: &mut TermStore,
    places: i128,
    twice: bool,
) -> Result<IdSequent, Fail> {
    let goal = store.add(&Term::False)?;
    let mut sequent = IdSequent {
        sorts: Items::new(alloc),
        records: Items::new(alloc),
        facts: Items::new(alloc),
        goal,
    };
    add_sort(alloc, &mut sequent.sorts)?;
    add_facts(alloc, store, &mut sequent.facts, places, twice)?;
    Ok(sequent)
}

fn are_within(count: usize, xs: &[usize]) -> bool
    ensures { result ≡ true → All (λ x. x < count) xs.now }
{
    for x in xs {
        if *x >= count {
            return false;
        }
    }
    true
}

/// Whether the sequent is one of the store, and its goal is small.
fn is_ready(store: &TermStore, sequent: &IdSequent) -> bool
    ensures within { result ≡ true → IsSequentWithin store.now sequent.now }
    ensures room { result ≡ true → length sequent.now.sorts + node_count (tree_at store.now sequent.now.goal) ≤ 2 ^ 32 }
{
    let count = store.len();
    if !are_within(count, sequent.facts.as_slice()) {
        return false;
    }
    if sequent.goal >= count {
        return false;
    }
    if sequent.sorts.len() >= 1000 {
        return false;
    }
    if store.measure(sequent.goal).nodes >= 1000 {
        return false;
    }
    true
}

fn outcome_of(alloc: Global, store: &mut TermStore, sequent: &IdSequent) -> Outcome {
    if !is_ready(store, sequent) {
        return Outcome::Nothing;
    }
    match instances_of(alloc, store, sequent) {
        Ok(made) => Outcome::Facts(made.facts.len()),
        Err(InstEnd::Instances) => Outcome::TooMany,
        Err(InstEnd::Size) => Outcome::TooLarge,
        Err(InstEnd::NoMemory) => Outcome::Nothing,
    }
}

/// The first row that does not hold.
fn first_wrong(alloc: Global) -> Result<Option<usize>, Fail> {
    for (row, (places, twice, expected)) in ROWS.iter().enumerate() {
        let mut store = TermStore::new(alloc);
        let sequent = sequent(alloc, &mut store, *places, *twice)?;
        if outcome_of(alloc, &mut store, &sequent) != *expected {
            return Ok(Some(row));
        }
    }
    Ok(None)
}

#[test]
fn sixty_four_are_allowed_and_sixty_five_are_not(rt: HostRuntime) -> Result<(), Fail> {
    let wrong = first_wrong(rt.alloc())?;
    assert_eq!(rt; wrong, None);
    Ok(())
}
