ghost use Rattle.std.specs.Prelude.{◌≡◌, ◌<◌, ◌++◌, [], ◌∷◌, length, reverse, MatchOption, IfOk, IfErr, OnOk};
ghost use Rattle.slang_values.specs.Value.{AreWellFormed, truth_type};
ghost use Rattle.slang_values.specs.Typing.{IsTyped};
ghost use Rattle.validity.specs.Validity.{IsWellSorted};
ghost use Rattle.case_rules.specs.Cases.{cases, case_limit, hypotheses as hypotheses_trees};
ghost use Rattle.term_sorts.specs.Types.{record_types, types_of};
ghost use Rattle.term_store.specs.Store.{tree_at, AreTreesOf, Grows};
ghost use Rattle.term_store.specs.Sequent.{sequent_at, IsSequentWithin};
ghost use Rattle.store_reads.specs.Marks.{AreMarked};
ghost use Rattle.store_cases.specs.Lists.{list_at};
ghost use Rattle.store_cases.specs.Search.{AreLeavesOf, IsSplitEnd, IsSearch, IsFurther, IsTakenApart, IsNextSearch};

use crate::NoMemory;
use crate::end::SplitEnd;
use crate::search::{IdBranch, Search};
use slang_values::Unary;
use sqlite_items::Items;
use std::alloc::{AllocError, Global};
use store_alternatives::alternatives;
use store_reads::{Mark, add_unary, mark_all, reduce};
use term_store::{IdSequent, TermStore};

/// The most cases that a sequent may have.
const CASE_LIMIT: usize = 512;

/// The cases of a sequent's hypotheses, each as the numbers of its literals.
#[derive(Drop)]
pub struct IdLeaves {
    pub leaves: Items<Items<usize>>,
}

/// A formula, reduced, and its alternatives. A literal has none.
#[derive(Drop)]
pub struct Apart {
    pub id: usize,
    pub alternatives: Option<Items<Items<usize>>>,
}

/// The facts, and last the negated goal.
fn hypotheses(
    alloc: Global,
    store: &mut TermStore,
    sequent: &IdSequent,
) -> Result<Items<usize>, NoMemory>
    requires { IsSequentWithin store.old sequent.now }
    ensures numbers { IfOk result (λ ks. AreTreesOf store.new ks (hypotheses_trees (sequent_at store.old sequent.now))) }
    ensures grows { Grows store.old store.new }
{
    let denied = add_unary(store, Unary::Not, sequent.goal)?;
    let mut ids = Items::from_slice(alloc, sequent.facts.as_slice())?;
    ids.push(denied)?;
    Ok(ids)
}

/// A formula, taken apart once.
fn take_apart(
    alloc: Global,
    store: &mut TermStore,
    marks: &mut Items<Mark>,
    sequent: &IdSequent,
    id: usize,
) -> Result<Apart, NoMemory>
    requires within { id < length store.old }
    requires marked { AreMarked store.old marks.old }
    requires records { AreWellFormed (record_types sequent.now.records) }
    requires typed { IsTyped (record_types sequent.now.records) (types_of sequent.now.sorts) (tree_at store.old id) truth_type }
    ensures apart { IfOk result (λ a. IsTakenApart (record_types sequent.now.records) (types_of sequent.now.sorts) store.new (tree_at store.old id) a) }
    ensures grows { Grows store.old store.new }
    ensures marked { AreMarked store.new marks.new }
{
    let id = reduce(alloc, store, marks.as_slice(), id)?;
    mark_all(store, marks)?;
    let alternatives = alternatives(alloc, store, marks.as_slice(), sequent, id)?;
    Ok(Apart { id, alternatives })
}

/// A literal more in a branch, or a branch for each alternative.
fn add_branches(
    search: &mut Search,
    literals: usize,
    apart: Apart,
    rest: usize,
) -> Result<(), NoMemory>
    requires literals { literals < length search.old.lists }
    requires rest { rest < length search.old.lists }
    ensures { OnOk result (IsFurther search.old search.new literals apart.id rest apart.alternatives) }
{
    match apart.alternatives {
        None => search.found(literals, apart.id, rest),
        Some(lists) => search.branch(literals, lists.as_slice(), rest),
    }
}

/// A branch in which nothing is left is one case more.
fn add_leaf(
    alloc: Global,
    search: &Search,
    literals: usize,
    leaves: &mut Items<Items<usize>>,
) -> Result<(), NoMemory>
    requires { literals < length search.now.lists }
    ensures { OnOk result (leaves.new ≡ leaves.old ++ reverse (list_at search.now.lists literals) ∷ []) }
{
    let leaf = search.lists.from_end(alloc, literals)?;
    leaves.push(leaf)
}

/// The branch that is next is one case, or it is taken apart.
fn step(
    alloc: Global,
    store: &mut TermStore,
    marks: &mut Items<Mark>,
    sequent: &IdSequent,
    search: &mut Search,
    branch: IdBranch,
    leaves: &mut Items<Items<usize>>,
) -> Result<(), NoMemory>
    requires search { IsSearch (record_types sequent.now.records) (types_of sequent.now.sorts) store.old search.old.lists (search.old.open_branches ++ branch ∷ []) leaves.old }
    requires marked { AreMarked store.old marks.old }
    requires records { AreWellFormed (record_types sequent.now.records) }
    ensures next { OnOk result (IsNextSearch (record_types sequent.now.records) (types_of sequent.now.sorts) store.old store.new search.old search.new branch leaves.old leaves.new) }
    ensures grows { Grows store.old store.new }
    ensures marked { AreMarked store.new marks.new }
{
    match search.lists.cell(branch.formulas) {
        None => add_leaf(alloc, search, branch.literals, leaves),
        Some(next) => {
            let apart = take_apart(alloc, store, marks, sequent, next.first)?;
            add_branches(search, branch.literals, apart, next.rest)
        }
    }
}

/// The cases, or none where there are too many. More steps than a number of 64 bits counts find no memory.
fn search_cases(
    alloc: Global,
    store: &mut TermStore,
    sequent: &IdSequent,
) -> Result<Option<Items<Items<usize>>>, NoMemory>
    requires sorted { IsWellSorted (sequent_at store.old sequent.now) }
    requires within { IsSequentWithin store.old sequent.now }
    ensures found { IfOk result (λ found. MatchOption found (case_limit < length (cases (sequent_at store.old sequent.now))) (λ leaves. AreLeavesOf store.new leaves (cases (sequent_at store.old sequent.now)))) }
    ensures grows { Grows store.old store.new }
{
    let formulas = hypotheses(alloc, store, sequent)?;
    let mut search = Search::new(alloc, formulas.as_slice())?;
    let mut marks = Items::new(alloc);
    mark_all(store, &mut marks)?;
    let mut leaves = Items::new(alloc);
    'branches: for _ in 0..u64::MAX {
        if leaves.len() > CASE_LIMIT {
            return Ok(None);
        }
        match search.open_branches.pop() {
            None => return Ok(Some(leaves)),
            Some(branch) => step(
                alloc,
                store,
                &mut marks,
                sequent,
                &mut search,
                branch,
                &mut leaves,
            )?,
        }
    }
    Err(AllocError)
}

/// The cases in which the facts of a sequent hold and its goal does not.
pub fn cases_of(
    alloc: Global,
    store: &mut TermStore,
    sequent: &IdSequent,
) -> Result<IdLeaves, SplitEnd>
    requires sorted { IsWellSorted (sequent_at store.old sequent.now) }
    requires within { IsSequentWithin store.old sequent.now }
    ensures ok { IfOk result (λ found. AreLeavesOf store.new found.leaves (cases (sequent_at store.old sequent.now))) }
    ensures err { IfErr result (λ end. IsSplitEnd end (cases (sequent_at store.old sequent.now))) }
    ensures grows { Grows store.old store.new }
{
    match search_cases(alloc, store, sequent)? {
        None => Err(SplitEnd::Cases),
        Some(leaves) => Ok(IdLeaves { leaves }),
    }
}
