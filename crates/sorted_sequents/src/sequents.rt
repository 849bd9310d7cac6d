ghost use Rattle.std.specs.Prelude.{◌≡◌, ◌∷◌, ◌↔◌, ◌≤◌, nat_lt, length, map, true, IfOk};
ghost use Rattle.std.specs.List.{list_all};
ghost use Rattle.validity.specs.Validity.{IsWellSorted};
ghost use Rattle.term_sorts.specs.Types.{types_of, record_types};
ghost use Rattle.term_store.specs.Store.{tree_at, AreWithin};
ghost use Rattle.term_store.specs.Sequent.{sequent_at, IsSequentWithin};
ghost use Rattle.store_substitution.specs.Loose.{AreDepths};
ghost use Rattle.sorted_sequents.specs.Answers.{AreFitAnswers};
ghost use Rattle.sorted_sequents.specs.Claims.{is_claim};

use crate::NoMemory;
use crate::claims::is_claim;
use crate::records::are_well_formed;
use crate::sorts::are_known;
use crate::table::work_out;
use sqlite_items::Items;
use std::alloc::Global;
use store_substitution::measure_depths;
use term_store::{IdSequent, TermStore};
use term_trees::Sort;

fn are_within(count: usize, ids: &[usize]) -> bool
    ensures { result ≡ list_all (λ k. nat_lt k count) ids.now }
{
    for id in ids {
        if *id >= count {
            return false;
        }
    }
    true
}

/// Whether the numbers of a sequent are in the store.
pub fn is_within(store: &TermStore, sequent: &IdSequent) -> bool
    ensures { (result ≡ true) ↔ IsSequentWithin store.now sequent.now }
{
    let count = store.len();
    are_within(count, sequent.facts.as_slice()) && sequent.goal < count
}

/// Whether the terms with these numbers are claims.
fn are_claims(
    symbols: &[Sort],
    records: &[Items<Sort>],
    store: &TermStore,
    answers: &[bool],
    depths: &[u64],
    ids: &[usize],
) -> bool
    requires within { AreWithin store.now ids.now }
    requires answers { AreFitAnswers (record_types records.now) (types_of symbols.now) store.now answers.now }
    requires depths { AreDepths store.now depths.now }
    requires answered { length store.now ≤ length answers.now }
    requires measured { length store.now ≤ length depths.now }
    ensures { result ≡ list_all (is_claim (record_types records.now) (types_of symbols.now)) (map (tree_at store.now) ids.now) }
{
    for place in 0..ids.len() {
        if !is_claim(symbols, records, store, answers, depths, ids[place]) {
            return false;
        }
    }
    true
}

/// Whether the facts and the goal of a sequent are claims.
fn has_claims(alloc: Global, store: &TermStore, sequent: &IdSequent) -> Result<bool, NoMemory>
    requires { IsSequentWithin store.now sequent.now }
    ensures { IfOk result (λ b. b ≡ list_all (is_claim (record_types sequent.now.records) (types_of sequent.now.sorts))
        (map (tree_at store.now) (sequent.now.goal ∷ sequent.now.facts))) }
{
    let symbols = sequent.sorts.as_slice();
    let records = sequent.records.as_slice();
    let mut answers = Vec::new(alloc);
    let mut depths = Items::new(alloc);
    work_out(symbols, records, store, &mut answers, store.len())?;
    measure_depths(store, &mut depths)?;
    let facts = sequent.facts.as_slice();
    Ok(
        is_claim(
            symbols,
            records,
            store,
            &answers,
            depths.as_slice(),
            sequent.goal,
        ) && are_claims(symbols, records, store, &answers, depths.as_slice(), facts),
    )
}

/// Whether a sequent over the store is well sorted: its facts and its goal are claims without loose bound variables over its symbols, and
/// no record holds itself or has more than 1,000 parts.
pub fn is_well_sorted(
    alloc: Global,
    store: &TermStore,
    sequent: &IdSequent,
) -> Result<bool, NoMemory>
    requires { IsSequentWithin store.now sequent.now }
    ensures { IfOk result (λ b. (b ≡ true) ↔ IsWellSorted (sequent_at store.now sequent.now)) }
{
    let records = sequent.records.as_slice();
    if !are_well_formed(alloc, records)? {
        return Ok(false);
    }
    if !are_known(records, sequent.sorts.as_slice()) {
        return Ok(false);
    }
    has_claims(alloc, store, sequent)
}
