ghost use Rattle.std.specs.Prelude.{◌≡◌, ◌<◌, ◌≤◌, [], ◌∷◌, map, length, Some, IfOk, IfSome};
ghost use Rattle.slang_values.specs.Value.{AreWellFormed};
ghost use Rattle.slang_values.specs.Tree.{binary};
ghost use Rattle.slang_values.specs.declared.operators.Binary.{Binary};
ghost use Rattle.case_rules.specs.Cases.{field_equalities, one_is_false};
ghost use Rattle.term_sorts.specs.Types.{record_types};
ghost use Rattle.term_store.specs.Store.{tree_at, AreWithin, AreTreesOf, Grows};
ghost use Rattle.store_formulas.specs.Top.{signed_tree, truth_alternatives, record_alternatives, alternatives_of_top, IsTopWithin};
ghost use Rattle.store_alternatives.specs.Numbers.{AreAlternativesAt, AreSignedWithin, is_literal_top};

use crate::NoMemory;
use crate::conditions::{field_equality, formula};
use crate::defaults::fields_of;
use crate::lists::{one_list, two_lists};
use slang_values::{Binary, Unary};
use sqlite_items::Items;
use std::alloc::Global;
use store_formulas::{Signed, Top};
use store_reads::{add_binary, add_unary};
use term_store::TermStore;
use term_trees::Sort;

/// The numbers of terms, or of their negations.
fn formulas(
    alloc: Global,
    store: &mut TermStore,
    signed: &[Signed],
) -> Result<Items<usize>, NoMemory>
    requires { AreSignedWithin store.old signed.now }
    ensures numbers { IfOk result (λ ks. AreTreesOf store.new ks (map (signed_tree store.old) signed.now)) }
    ensures grows { Grows store.old store.new }
{
    let mut ids = Items::new(alloc);
    for term in signed {
        let id = formula(store, *term)?;
        ids.push(id)?;
    }
    Ok(ids)
}

/// One alternative.
fn one_alternative(
    alloc: Global,
    store: &mut TermStore,
    signed: &[Signed],
) -> Result<Items<Items<usize>>, NoMemory>
    requires { AreSignedWithin store.old signed.now }
    ensures numbers { IfOk result (λ ls. AreAlternativesAt store.new ls (Some (map (signed_tree store.old) signed.now ∷ []))) }
    ensures grows { Grows store.old store.new }
{
    let ids = formulas(alloc, store, signed)?;
    one_list(alloc, ids.as_slice())
}

/// Two alternatives.
fn two_alternatives(
    alloc: Global,
    store: &mut TermStore,
    first: &[Signed],
    second: &[Signed],
) -> Result<Items<Items<usize>>, NoMemory>
    requires first { AreSignedWithin store.old first.now }
    requires second { AreSignedWithin store.old second.now }
    ensures numbers { IfOk result (λ ls. AreAlternativesAt store.new ls (Some (map (signed_tree store.old) first.now ∷ map (signed_tree store.old) second.now ∷ []))) }
    ensures grows { Grows store.old store.new }
{
    let first = formulas(alloc, store, first)?;
    let second = formulas(alloc, store, second)?;
    two_lists(alloc, first.as_slice(), second.as_slice())
}

/// The alternatives of two unequal numbers: one is less, or the other.
fn unequal(
    alloc: Global,
    store: &mut TermStore,
    a: usize,
    b: usize,
) -> Result<Items<Items<usize>>, NoMemory>
    requires left { a < length store.old }
    requires right { b < length store.old }
    ensures numbers { IfOk result (λ ls. AreAlternativesAt store.new ls (Some ((binary Binary.Lt (tree_at store.old a) (tree_at store.old b) ∷ []) ∷ (binary Binary.Lt (tree_at store.old b) (tree_at store.old a) ∷ []) ∷ []))) }
    ensures grows { Grows store.old store.new }
{
    let less = add_binary(store, Binary::Lt, a, b)?;
    let greater = add_binary(store, Binary::Lt, b, a)?;
    two_lists(alloc, &[less], &[greater])
}

/// The numbers of the equalities of so many fields of two records.
fn equal_fields(
    alloc: Global,
    store: &mut TermStore,
    count: usize,
    a: usize,
    b: usize,
) -> Result<Items<usize>, NoMemory>
    requires few { count ≤ 1000 }
    requires left { a < length store.old }
    requires right { b < length store.old }
    ensures numbers { IfOk result (λ ks. AreTreesOf store.new ks (field_equalities count 0 (tree_at store.old a) (tree_at store.old b))) }
    ensures grows { Grows store.old store.new }
{
    let mut equalities = Items::new(alloc);
    for place in 0..count {
        let equality = field_equality(store, place as u32, a, b)?;
        equalities.push(equality)?;
    }
    Ok(equalities)
}

/// The negation of each term, as an alternative of its own.
fn one_fails(
    alloc: Global,
    store: &mut TermStore,
    ids: &[usize],
) -> Result<Items<Items<usize>>, NoMemory>
    requires { AreWithin store.old ids.now }
    ensures numbers { IfOk result (λ ls. AreAlternativesAt store.new ls (Some (one_is_false (map (tree_at store.old) ids.now)))) }
    ensures grows { Grows store.old store.new }
{
    let mut lists = Items::new(alloc);
    for id in ids {
        let denied = add_unary(store, Unary::Not, *id)?;
        lists.push(Items::from_slice(alloc, &[denied])?)?;
    }
    Ok(lists)
}

/// The alternatives of two records that are equal, or are not.
fn record_lists(
    alloc: Global,
    store: &mut TermStore,
    count: usize,
    a: usize,
    b: usize,
    holds: bool,
) -> Result<Items<Items<usize>>, NoMemory>
    requires few { count ≤ 1000 }
    requires left { a < length store.old }
    requires right { b < length store.old }
    ensures numbers { IfOk result (λ ls. AreAlternativesAt store.new ls (Some (record_alternatives holds count (tree_at store.old a) (tree_at store.old b)))) }
    ensures grows { Grows store.old store.new }
{
    let equalities = equal_fields(alloc, store, count, a, b)?;
    if holds {
        one_list(alloc, equalities.as_slice())
    } else {
        one_fails(alloc, store, equalities.as_slice())
    }
}

/// The alternatives of two truth values that are equal, or are not.
fn truths(
    alloc: Global,
    store: &mut TermStore,
    a: usize,
    b: usize,
    holds: bool,
) -> Result<Items<Items<usize>>, NoMemory>
    requires left { a < length store.old }
    requires right { b < length store.old }
    ensures numbers { IfOk result (λ ls. AreAlternativesAt store.new ls (Some (truth_alternatives holds (tree_at store.old a) (tree_at store.old b)))) }
    ensures grows { Grows store.old store.new }
{
    let with_a = [Signed { id: a, holds: true }, Signed { id: b, holds }];
    let with_not_a = [
        Signed {
            id: a,
            holds: false,
        },
        Signed {
            id: b,
            holds: !holds,
        },
    ];
    two_alternatives(alloc, store, &with_a, &with_not_a)
}

/// Whether nothing stands at the top that a formula could be taken apart by.
pub fn is_literal(top: Top) -> bool
    ensures { result ≡ is_literal_top top }
{
    match top {
        Top::Literal => true,
        Top::Again(_) | Top::Both(_, _) | Top::Either(_, _) | Top::Truths(_, _, _) => false,
        Top::Apart(_, _) | Top::Records(_, _, _, _) => false,
    }
}

/// The alternatives that a formula has by what stands at its top, where it is no literal.
pub fn lists_of_top(
    alloc: Global,
    store: &mut TermStore,
    records: &[Items<Sort>],
    top: Top,
) -> Result<Items<Items<usize>>, NoMemory>
    requires within { IsTopWithin store.old top }
    requires records { AreWellFormed (record_types records.now) }
    ensures numbers { IfOk result (λ ls. IfSome (alternatives_of_top (record_types records.now) store.old top) (λ as'. AreAlternativesAt store.new ls (Some as'))) }
    ensures grows { Grows store.old store.new }
{
    match top {
        Top::Literal => Ok(Items::new(alloc)),
        Top::Again(x) => one_alternative(alloc, store, &[x]),
        Top::Both(x, y) => one_alternative(alloc, store, &[x, y]),
        Top::Either(x, y) => two_alternatives(alloc, store, &[x], &[y]),
        Top::Truths(a, b, holds) => truths(alloc, store, a, b, holds),
        Top::Apart(a, b) => unequal(alloc, store, a, b),
        Top::Records(n, a, b, holds) => {
            let count = fields_of(records, n).len();
            record_lists(alloc, store, count, a, b, holds)
        }
    }
}
