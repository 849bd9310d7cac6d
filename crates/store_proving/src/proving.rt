ghost use Rattle.std.specs.Prelude.{◌≡◌, ℕ, ◌+◌, ◌<◌, ◌≤◌, ◌^◌, [], map, length, true, IfOk, IfErr, OnOk};
ghost use Rattle.std.specs.List.{list_all, AllByRecursion};
ghost use Rattle.slang_values.specs.Measure.{node_count};
ghost use Rattle.validity.specs.Validity.{IsWellSorted, IsValid, symbol_types};
ghost use Rattle.case_rules.specs.Cases.{hypotheses};
ghost use Rattle.closing.specs.Literals as literals;
ghost use Rattle.term_sorts.specs.Types.{record_types, types_of};
ghost use Rattle.term_store.specs.Store.{tree_at, AreWithin, Grows};
ghost use Rattle.term_store.specs.Sequent.{sequent_at, IsSequentWithin};
ghost use Rattle.store_cases.specs.Search.{trees_of_leaves};
ghost use Rattle.store_leaves.specs.Workings.{AreWorkings};
ghost use Rattle.whole_closing.specs.Closing.{Closing, closed, closing, closing_of_case, closing_of_cases, closing_with_instances};
ghost use Rattle.store_proving.specs.Ends.{IsProveEnd, LeavesTold, stop_in};
ghost use Rattle.store_proving.specs.Proofs.{IsProofAdded, AreProofsOf, ProvesInstanced, HasProofs};

use crate::NoMemory;
use crate::ending::ProveEnd;
use lk_io::Stop;
use quant_inst::instances_of;
use sqlite_items::Items;
use std::alloc::Global;
use store_cases::cases_of;
use store_leaves::{LeafProof, Workings, close_leaf, is_narrow_outside};
use term_store::{IdSequent, TermStore};

/// A proof for each leaf of a sequent with its instances, in order.
#[derive(Drop)]
pub struct Proved {
    pub leaves: Items<LeafProof>,
}

/// Whether each number in a hypothesis that stands outside the bodies of quantifiers has a form.
fn is_narrow_hypothesis(
    alloc: Global,
    store: &mut TermStore,
    work: &mut Workings,
    sequent: &IdSequent,
    id: usize,
) -> Result<bool, NoMemory>
    requires within { id < length store.old }
    requires work { AreWorkings (record_types sequent.now.records) (types_of sequent.now.sorts) store.old work.old }
    ensures narrow { IfOk result (λ b. b ≡ literals.is_narrow_outside (record_types sequent.now.records) (types_of sequent.now.sorts) (tree_at store.old id)) }
    ensures grows { Grows store.old store.new }
    ensures work { AreWorkings (record_types sequent.now.records) (types_of sequent.now.sorts) store.new work.new }
{
    let symbols = sequent.sorts.as_slice();
    let records = sequent.records.as_slice();
    is_narrow_outside(alloc, symbols, records, store, work, id)
}

/// Whether that holds of the facts and of the goal.
fn has_narrow_hypotheses(
    alloc: Global,
    store: &mut TermStore,
    work: &mut Workings,
    sequent: &IdSequent,
) -> Result<bool, NoMemory>
    requires within { IsSequentWithin store.old sequent.now }
    requires work { AreWorkings (record_types sequent.now.records) (types_of sequent.now.sorts) store.old work.old }
    ensures narrow { IfOk result (λ b. b ≡ list_all (literals.is_narrow_outside (record_types sequent.now.records) (types_of sequent.now.sorts))
        (hypotheses (sequent_at store.old sequent.now))) }
    ensures grows { Grows store.old store.new }
    ensures work { AreWorkings (record_types sequent.now.records) (types_of sequent.now.sorts) store.new work.new }
{
    'facts: for place in 0..sequent.facts.len() {
        let fact = sequent.facts.as_slice()[place];
        let is_narrow = is_narrow_hypothesis(alloc, store, work, sequent, fact)?;
        if !is_narrow {
            return Ok(false);
        }
    }
    is_narrow_hypothesis(alloc, store, work, sequent, sequent.goal)
}

/// Says that the work is not wanted any more where more is told than was.
fn poll<S: Stop>(mine: u64, stop: &mut S) -> Result<(), ProveEnd>
    requires { S.told stop.old ≤ mine }
    ensures stopped { LeavesTold mine (S.told stop.old) (S.told stop.new) (stop_in result) }
    ensures end { IfErr result (λ end. (c : Closing) → IsProveEnd end c) }
{
    let told = stop.poll();
    if told > mine {
        return Err(ProveEnd::Stopped { told });
    }
    Ok(())
}

/// Adds the proof of one leaf.
fn add_proof(
    alloc: Global,
    store: &mut TermStore,
    work: &mut Workings,
    sequent: &IdSequent,
    leaf: &[usize],
    proofs: &mut Items<LeafProof>,
) -> Result<(), ProveEnd>
    requires leaf { AreWithin store.old leaf.now }
    requires work { AreWorkings (record_types sequent.now.records) (types_of sequent.now.sorts) store.old work.old }
    ensures closed { OnOk result (closing_of_case (record_types sequent.now.records) (types_of sequent.now.sorts) (map (tree_at store.old) leaf.now) ≡ closed) }
    ensures added { OnOk result (IsProofAdded (record_types sequent.now.records) (types_of sequent.now.sorts)
        (map (tree_at store.old) leaf.now) proofs.old proofs.new) }
    ensures end { IfErr result (λ end. IsProveEnd end (closing_of_case (record_types sequent.now.records) (types_of sequent.now.sorts)
        (map (tree_at store.old) leaf.now))) }
    ensures stopped { stop_in result ≡ None }
    ensures grows { Grows store.old store.new }
    ensures work { AreWorkings (record_types sequent.now.records) (types_of sequent.now.sorts) store.new work.new }
{
    let symbols = sequent.sorts.as_slice();
    let records = sequent.records.as_slice();
    match close_leaf(alloc, symbols, records, store, work, leaf) {
        Ok(proof) => {
            proofs.push(proof)?;
            Ok(())
        }
        Err(end) => Err(ProveEnd::from(end)),
    }
}

/// Adds the proof of the next leaf, unless the work is not wanted any more.
fn close_next<S: Stop>(
    alloc: Global,
    store: &mut TermStore,
    work: &mut Workings,
    sequent: &IdSequent,
    leaf: &[usize],
    mine: u64,
    stop: &mut S,
    proofs: &mut Items<LeafProof>,
) -> Result<(), ProveEnd>
    requires leaf { AreWithin store.old leaf.now }
    requires work { AreWorkings (record_types sequent.now.records) (types_of sequent.now.sorts) store.old work.old }
    requires told { S.told stop.old ≤ mine }
    ensures closed { OnOk result (closing_of_case (record_types sequent.now.records) (types_of sequent.now.sorts) (map (tree_at store.old) leaf.now) ≡ closed) }
    ensures added { OnOk result (IsProofAdded (record_types sequent.now.records) (types_of sequent.now.sorts)
        (map (tree_at store.old) leaf.now) proofs.old proofs.new) }
    ensures end { IfErr result (λ end. IsProveEnd end (closing_of_case (record_types sequent.now.records) (types_of sequent.now.sorts)
        (map (tree_at store.old) leaf.now))) }
    ensures stopped { LeavesTold mine (S.told stop.old) (S.told stop.new) (stop_in result) }
    ensures grows { Grows store.old store.new }
    ensures work { AreWorkings (record_types sequent.now.records) (types_of sequent.now.sorts) store.new work.new }
{
    match poll(mine, stop) {
        Ok(()) => add_proof(alloc, store, work, sequent, leaf, proofs),
        Err(end) => Err(end),
    }
}

/// Adds a proof for each leaf, up to the first that is not closed.
fn add_proofs<S: Stop>(
    alloc: Global,
    store: &mut TermStore,
    work: &mut Workings,
    sequent: &IdSequent,
    leaves: &[Items<usize>],
    mine: u64,
    stop: &mut S,
    proofs: &mut Items<LeafProof>,
) -> Result<(), ProveEnd>
    requires leaves { AllByRecursion (AreWithin store.old) leaves.now }
    requires work { AreWorkings (record_types sequent.now.records) (types_of sequent.now.sorts) store.old work.old }
    requires told { S.told stop.old ≤ mine }
    requires none { proofs.old ≡ [] }
    ensures closed { OnOk result (closing_of_cases (record_types sequent.now.records) (types_of sequent.now.sorts)
        (trees_of_leaves store.old leaves.now) ≡ closed) }
    ensures proofs { OnOk result (AreProofsOf (record_types sequent.now.records) (types_of sequent.now.sorts)
        (trees_of_leaves store.old leaves.now) proofs.new) }
    ensures end { IfErr result (λ end. IsProveEnd end (closing_of_cases (record_types sequent.now.records) (types_of sequent.now.sorts)
        (trees_of_leaves store.old leaves.now))) }
    ensures stopped { LeavesTold mine (S.told stop.old) (S.told stop.new) (stop_in result) }
    ensures grows { Grows store.old store.new }
{
    'leaves: for leaf in leaves {
        close_next(
            alloc,
            store,
            work,
            sequent,
            leaf.as_slice(),
            mine,
            stop,
            proofs,
        )?;
    }
    Ok(())
}

/// Closes the cases of a sequent whose numbers have forms.
fn close_narrow<S: Stop>(
    alloc: Global,
    store: &mut TermStore,
    work: &mut Workings,
    sequent: &IdSequent,
    mine: u64,
    stop: &mut S,
    proofs: &mut Items<LeafProof>,
) -> Result<(), ProveEnd>
    requires within { IsSequentWithin store.old sequent.now }
    requires sorted { IsWellSorted (sequent_at store.old sequent.now) }
    requires narrow { list_all (literals.is_narrow_outside (record_types sequent.now.records) (types_of sequent.now.sorts))
        (hypotheses (sequent_at store.old sequent.now)) ≡ true }
    requires work { AreWorkings (record_types sequent.now.records) (types_of sequent.now.sorts) store.old work.old }
    requires told { S.told stop.old ≤ mine }
    requires none { proofs.old ≡ [] }
    ensures closed { OnOk result (closing_with_instances (sequent_at store.old sequent.now) ≡ closed) }
    ensures proofs { OnOk result (ProvesInstanced (sequent_at store.old sequent.now) proofs.new) }
    ensures end { IfErr result (λ end. IsProveEnd end (closing_with_instances (sequent_at store.old sequent.now))) }
    ensures stopped { LeavesTold mine (S.told stop.old) (S.told stop.new) (stop_in result) }
    ensures grows { Grows store.old store.new }
{
    match cases_of(alloc, store, sequent) {
        Ok(cases) => add_proofs(
            alloc,
            store,
            work,
            sequent,
            cases.leaves.as_slice(),
            mine,
            stop,
            proofs,
        ),
        Err(end) => Err(ProveEnd::from(end)),
    }
}

/// Closes a sequent with its instances.
fn close_instanced<S: Stop>(
    alloc: Global,
    store: &mut TermStore,
    sequent: &IdSequent,
    mine: u64,
    stop: &mut S,
    proofs: &mut Items<LeafProof>,
) -> Result<(), ProveEnd>
    requires within { IsSequentWithin store.old sequent.now }
    requires sorted { IsWellSorted (sequent_at store.old sequent.now) }
    requires told { S.told stop.old ≤ mine }
    requires none { proofs.old ≡ [] }
    ensures closed { OnOk result (closing_with_instances (sequent_at store.old sequent.now) ≡ closed) }
    ensures proofs { OnOk result (ProvesInstanced (sequent_at store.old sequent.now) proofs.new) }
    ensures end { IfErr result (λ end. IsProveEnd end (closing_with_instances (sequent_at store.old sequent.now))) }
    ensures stopped { LeavesTold mine (S.told stop.old) (S.told stop.new) (stop_in result) }
    ensures grows { Grows store.old store.new }
{
    let mut work = Workings::new(alloc);
    let are_narrow = has_narrow_hypotheses(alloc, store, &mut work, sequent)?;
    if !are_narrow {
        return Err(ProveEnd::Wide);
    }
    close_narrow(alloc, store, &mut work, sequent, mine, stop, proofs)
}

/// Closes a sequent, or says why it is not closed: its instances are added, and then each of its cases is closed. What is closed is
/// valid. The store keeps what it held, and more may be added.
pub fn prove_ids<S: Stop>(
    alloc: Global,
    store: &mut TermStore,
    sequent: &IdSequent,
    mine: u64,
    stop: &mut S,
) -> Result<Proved, ProveEnd>
    requires within { IsSequentWithin store.old sequent.now }
    requires sorted { IsWellSorted (sequent_at store.old sequent.now) }
    requires room { length sequent.now.sorts + node_count (tree_at store.old sequent.now.goal) ≤ 2 ^ 32 }
    requires told { S.told stop.old ≤ mine }
    ensures closed { OnOk result (closing (sequent_at store.old sequent.now) ≡ closed) }
    ensures proofs { IfOk result (λ proved. HasProofs (sequent_at store.old sequent.now) proved.leaves) }
    ensures valid { OnOk result (IsValid (sequent_at store.old sequent.now)) }
    ensures end { IfErr result (λ end. IsProveEnd end (closing (sequent_at store.old sequent.now))) }
    ensures stopped { LeavesTold mine (S.told stop.old) (S.told stop.new) (stop_in result) }
    ensures grows { Grows store.old store.new }
{
    match instances_of(alloc, store, sequent) {
        Ok(made) => prove_made(alloc, store, &made, mine, stop),
        Err(end) => Err(ProveEnd::from(end)),
    }
}

/// The proofs of the leaves of a sequent that has its instances.
fn prove_made<S: Stop>(
    alloc: Global,
    store: &mut TermStore,
    made: &IdSequent,
    mine: u64,
    stop: &mut S,
) -> Result<Proved, ProveEnd>
    requires within { IsSequentWithin store.old made.now }
    requires sorted { IsWellSorted (sequent_at store.old made.now) }
    requires told { S.told stop.old ≤ mine }
    ensures closed { OnOk result (closing_with_instances (sequent_at store.old made.now) ≡ closed) }
    ensures proofs { IfOk result (λ proved. ProvesInstanced (sequent_at store.old made.now) proved.leaves) }
    ensures end { IfErr result (λ end. IsProveEnd end (closing_with_instances (sequent_at store.old made.now))) }
    ensures stopped { LeavesTold mine (S.told stop.old) (S.told stop.new) (stop_in result) }
    ensures grows { Grows store.old store.new }
{
    let mut leaves = Items::new(alloc);
    match close_instanced(alloc, store, made, mine, stop, &mut leaves) {
        Ok(()) => Ok(Proved { leaves }),
        Err(end) => Err(end),
    }
}
