ghost use Rattle.std.specs.Prelude.{◌≡◌, ◌≤◌, ◌<◌, ◌+◌, ◌^◌, length, true, IfOk};
ghost use Rattle.slang_values.specs.Measure.{node_count};
ghost use Rattle.validity.specs.Validity.{IsWellSorted};
ghost use Rattle.term_store.specs.Store.{Grows, tree_at};
ghost use Rattle.term_store.specs.Sequent.{sequent_at, IsSequentWithin};
ghost use Rattle.verdict_laws.specs.Rules.{unclosed};
ghost use Rattle.proof_closing.specs.Prover.{Leaves, stop_of};

use crate::ending::{answer_of, reason_of};
use leg_answers::LegProver;
use lk_io::Stop;
use lk_terms::Sequent;
use program_trees::Reason;
use proof_closing::{CloseEnd, Closing, Prover};
use std::alloc::Global;
use store_proving::prove_ids;
use stored_sequents::stored_sequent;
use term_store::{IdSequent, TermStore};

/// The prover of the rules, for the work of a number. It stops where it is told of later work.
#[derive(Drop)]
pub struct RuleProver<S: Stop + Drop> {
    mine: u64,
    stop: S,
}

/// Whether there are numbers enough for the symbols that a quantified goal brings.
fn has_room(store: &TermStore, sequent: &IdSequent) -> bool
    requires { sequent.now.goal < length store.now }
    ensures { result ≡ true → length sequent.now.sorts + node_count (tree_at store.now sequent.now.goal) ≤ 2 ^ 32 }
{
    let nodes = store.measure(sequent.goal).nodes;
    nodes < u32::MAX && sequent.sorts.len() < (u32::MAX - nodes) as usize
}

impl<S: Stop + Drop> RuleProver<S> {
    pub fn new(mine: u64, stop: S) -> RuleProver<S>
        ensures mine { result.mine ≡ mine }
        ensures stop { result.stop ≡ stop }
    {
        RuleProver { mine, stop }
    }

    /// Why a sequent over the store is not closed, where it is not.
    fn unclosed_in(
        &mut self,
        alloc: Global,
        store: &mut TermStore,
        sequent: &IdSequent,
    ) -> Result<Option<Reason>, CloseEnd>
        requires current { S.told self.old.stop ≤ self.old.mine }
        requires within { IsSequentWithin store.old sequent.now }
        requires sorted { IsWellSorted (sequent_at store.old sequent.now) }
        ensures told { IfOk result (λ told. told ≡ unclosed (sequent_at store.old sequent.now)) }
        ensures grows { Grows store.old store.new }
        ensures leaves { Leaves (record { mine = self.old.mine; told = S.told self.old.stop })
            (record { mine = self.new.mine; told = S.told self.new.stop }) (stop_of result) }
    {
        if !has_room(store, sequent) {
            return Err(CloseEnd::NoMemory);
        }
        match prove_ids(alloc, store, sequent, self.mine, &mut self.stop) {
            Ok(_) => Ok(None),
            Err(end) => match reason_of(end) {
                Ok(reason) => Ok(Some(reason)),
                Err(end) => Err(end),
            },
        }
    }
}

impl<S: Stop + Drop> Prover for RuleProver<S> {
    ghost use Rattle.verdict_laws.specs.Rules.{is_closed};

    ghost closes = { is_closed };

    ghost work = { λ p. record { mine = p.mine; told = S.told p.stop } };

    fn close(&mut self, alloc: Global, sequent: &Sequent) -> Result<Closing, CloseEnd> {
        let mut store = TermStore::new(alloc);
        match stored_sequent(alloc, &mut store, sequent) {
            Ok(ids) => answer_of(self.unclosed_in(alloc, &mut store, &ids)),
            Err(_) => Err(CloseEnd::NoMemory),
        }
    }
}

impl<S: Stop + Drop> LegProver for RuleProver<S> {
    ghost reason = { unclosed };

    fn unclosed(
        &mut self,
        alloc: Global,
        store: &mut TermStore,
        sequent: &IdSequent,
    ) -> Result<Option<Reason>, CloseEnd> {
        self.unclosed_in(alloc, store, sequent)
    }
}
