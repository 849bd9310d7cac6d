ghost use Rattle.std.specs.Prelude.{◌≡◌, ◌<◌, ◌+◌, ◌^◌, List, length, Some, None, Ok, Err, IfOk, IfErr, OnOk};
ghost use Rattle.std.specs.Result.{OkIff};
ghost use Rattle.term_nodes.specs.declared.node.Node.{Node};
ghost use Rattle.term_store.specs.Store.{GainsAmong};
ghost use Rattle.lk_programs.specs.LegData.{leg_tree, item_tree};
ghost use Rattle.leg_rules.specs.Sequents.{obligations};
ghost use Rattle.item_terms.specs.Items.{item_kind, asked_at, IsAskedWithin};
ghost use Rattle.sym_exec.specs.Steps.{passed_obligations, IsAnyAsking, end_at};
ghost use Rattle.sym_exec.specs.declared.end.ExecEnd.{ExecEnd as End};

use crate::NoMemory;
use crate::end::{ExecEnd, Next};
use item_terms::{Asked, ItemEnd, take_item};
use leg_sorts::{record_sorts, sorts_of};
use leg_states::LegState;
use lk_programs::{Item, Kind, Leg};
use sqlite_items::Items;
use std::alloc::{AllocError, Global};
use term_store::TermStore;
use term_trees::Sort;

/// A place in a leg, with what stands there.
#[derive(Drop)]
pub struct Exec {
    pub at: usize,
    /// The sorts of the leg's variables.
    pub sorts: Items<Sort>,
    /// The sorts of the fields of its records.
    pub records: Items<Items<Sort>>,
    pub state: LegState,
    pub end: Option<ExecEnd>,
}

/// A place as a number, where there is one.
fn number(place: usize) -> Result<u32, NoMemory>
    ensures { OkIff result (place < 2 ^ 32) place }
{
    u32::try_from(place).map_err(|_| AllocError)
}

/// The kind under which a term of the item that is past a limit is told.
fn kind_of(item: &Item) -> Kind
    ensures { result ≡ item_kind (item_tree item.now) }
{
    match item {
        Item::Check(kind, _) => *kind,
        Item::Proof(_) => Kind::Deduce,
        Item::Assume(_) | Item::Set(_, _) | Item::Fresh(_) => Kind::Term,
    }
}

/// What comes next where an item asks for something.
fn next_of(asked: Asked, item: u32, kind: Kind) -> Option<Next>
    ensures obligations { (store : List Node) → passed_obligations store result ≡ asked_at store item kind asked }
    ensures asking { (store : List Node) → IsAskedWithin store asked → IsAnyAsking store result }
{
    match asked {
        Asked::Nothing => None,
        Asked::Sequent(sequent) => Some(Next::Check {
            item,
            kind,
            sequent,
        }),
        Asked::Proof { base, steps } => Some(Next::Proof { item, base, steps }),
    }
}

/// The end at an item.
fn end_of(end: ItemEnd, item: u32, kind: Kind) -> ExecEnd
    ensures { result ≡ end_at item kind end }
{
    match end {
        ItemEnd::Size => ExecEnd::Size { item, kind },
        ItemEnd::NoMemory => ExecEnd::NoMemory,
    }
}

impl Exec {
    ghost use Rattle.sym_exec.specs.Steps.{pending, gained_ahead, IsReady, IsReadableLeg, IsPassed, IsAhead, IsNext, IsExecEnd};

    /// The beginning of a leg, where all that is to be shown along it is to come.
    pub fn new(alloc: Global, leg: &Leg) -> Result<Exec, NoMemory>
        requires { IsReadableLeg leg.now }
        ensures start { IfOk result (λ it. (store : List Node) → pending store it leg.now ≡ obligations (leg_tree leg.now)) }
        ensures ready { IfOk result (λ it. (store : List Node) → IsReady store it leg.now) }
        ensures end { IfOk result (λ it. it.end ≡ None) }
    {
        let sorts = sorts_of(alloc, leg.vars.as_slice())?;
        let records = record_sorts(alloc, leg.records.as_slice())?;
        let state = LegState::new(alloc, leg.vars.len())?;
        Ok(Exec {
            at: 0,
            sorts,
            records,
            state,
            end: None,
        })
    }

    /// The next sequent or proof of the leg, over numbers of the store. After an error there is the same error again, and after the end the end.
    pub fn next(&mut self, alloc: Global, leg: &Leg, store: &mut TermStore) -> Result<Next, ExecEnd>
        requires { self.old.end ≡ None → IsReady store.old self.old leg.now }
        ensures next { IfOk result (λ next. IsNext next store.old self.old store.new self.new leg.now) }
        ensures goes_on { IfOk result (λ _. (self.old.end ≡ None) × (self.new.end ≡ None)) }
        ensures ready { OnOk result (IsReady store.new self.new leg.now) }
        ensures end { self.old.end ≡ None → IfErr result (λ end. IsExecEnd end store.old self.old leg.now) }
        ensures kept { IfErr result (λ end. self.new.end ≡ Some end) }
        ensures again { (end : End) → self.old.end ≡ Some end → (result ≡ Err end) × (store.new ≡ store.old) }
        ensures done { self.old.end ≡ None → self.old.at ≡ length leg.now.items → (result ≡ Ok Next.Done) × (store.new ≡ store.old) }
        ensures gains { GainsAmong store.old store.new (gained_ahead store.old self.old leg.now) }
    {
        if let Some(end) = self.end {
            return Err(end);
        }
        if self.at == leg.items.len() {
            return Ok(Next::Done);
        }
        match self.step(alloc, leg, store) {
            Ok(next) => Ok(next),
            Err(end) => {
                self.end = Some(end);
                Err(end)
            }
        }
    }

    /// Passes the item at the place.
    fn pass(
        &mut self,
        alloc: Global,
        leg: &Leg,
        store: &mut TermStore,
    ) -> Result<Option<Next>, ExecEnd>
        requires ready { IsReady store.old self.old leg.now }
        requires inside { self.old.at < length leg.now.items }
        ensures next { IfOk result (λ next. IsPassed next store.old self.old store.new self.new leg.now) }
        ensures ready { OnOk result (IsReady store.new self.new leg.now) }
        ensures at { OnOk result (self.new.at ≡ self.old.at + 1) }
        ensures end { IfErr result (λ end. IsExecEnd end store.old self.old leg.now) }
        ensures same { self.new.end ≡ self.old.end }
        ensures gains { GainsAmong store.old store.new (gained_ahead store.old self.old leg.now) }
        ensures ahead { OnOk result (IsAhead store.old self.old store.new self.new leg.now) }
    {
        let place = self.at;
        let items = leg.items.as_slice();
        let item = &items[place];
        let number = number(place)?;
        match take_item(
            alloc,
            store,
            &mut self.state,
            self.sorts.as_slice(),
            self.records.as_slice(),
            item,
        ) {
            Ok(asked) => {
                self.at = place + 1;
                Ok(next_of(asked, number, kind_of(item)))
            }
            Err(end) => Err(end_of(end, number, kind_of(item))),
        }
    }

    /// Goes along the items, up to one that asks for something.
    fn step(&mut self, alloc: Global, leg: &Leg, store: &mut TermStore) -> Result<Next, ExecEnd>
        requires { IsReady store.old self.old leg.now }
        ensures next { IfOk result (λ next. IsNext next store.old self.old store.new self.new leg.now) }
        ensures ready { OnOk result (IsReady store.new self.new leg.now) }
        ensures end { IfErr result (λ end. IsExecEnd end store.old self.old leg.now) }
        ensures same { self.new.end ≡ self.old.end }
        ensures gains { GainsAmong store.old store.new (gained_ahead store.old self.old leg.now) }
    {
        'items: while self.at < leg.items.len() {
            match self.pass(alloc, leg, store)? {
                Some(next) => return Ok(next),
                None => {}
            }
        }
        Ok(Next::Done)
    }
}
