ghost use Rattle.std.specs.Prelude.{◌≡◌, ◌<◌, length, IfOk, true, neg_ℤ};
ghost use Rattle.tree_forms.specs.Form as forms;
ghost use Rattle.term_store.specs.Store.{tree_at};
ghost use Rattle.store_forms.specs.Form.{form_at, IsForm, IsSmall};
ghost use Rattle.store_entries.specs.Entries.{HasForm, AreEntries};
ghost use Rattle.store_atoms.specs.Views.{HasRoom};
ghost use Rattle.closing.specs.Rows as row_specs;

use crate::NoMemory;
use std::alloc::Global;
use store_entries::{Entry, IdForm};
use term_store::TermStore;

/// The form of a narrow term.
pub fn form_there<'a>(store: &TermStore, entries: &'a [Entry], id: usize) -> &'a IdForm
    requires entries { AreEntries store.now entries.now }
    requires formed { id < length entries.now }
    requires narrow { forms.is_narrow (tree_at store.now id) ≡ true }
    ensures { HasForm store.now (tree_at store.now id) result.now }
{
    match &entries[id] {
        Entry::Form(form) => form,
        Entry::Wide => unreachable!(),
    }
}

/// The sum of two forms, with room for one more number.
fn sum(alloc: Global, store: &TermStore, left: &IdForm, right: &IdForm) -> Result<IdForm, NoMemory>
    requires first { IsSmall store.now left.now }
    requires second { IsSmall store.now right.now }
    ensures form { IfOk result (λ f. IsForm store.now f (forms.plus (form_at store.now left.now) (form_at store.now right.now))) }
    ensures room { IfOk result (λ f. HasRoom f) }
{
    let _count = right.parts.len();
    left.plus(alloc, store, right)
}

/// The form of a difference.
pub fn difference_of(
    alloc: Global,
    store: &TermStore,
    entries: &[Entry],
    a: usize,
    b: usize,
) -> Result<IdForm, NoMemory>
    requires entries { AreEntries store.now entries.now }
    requires left { a < length entries.now }
    requires right { b < length entries.now }
    requires left_narrow { forms.is_narrow (tree_at store.now a) ≡ true }
    requires right_narrow { forms.is_narrow (tree_at store.now b) ≡ true }
    ensures form { IfOk result (λ f. IsForm store.now f (row_specs.difference (tree_at store.now a) (tree_at store.now b))) }
    ensures room { IfOk result (λ f. HasRoom f) }
{
    let right = form_there(store, entries, b);
    let negative = right.times(alloc, -1)?;
    let left = form_there(store, entries, a);
    sum(alloc, store, left, &negative)
}

/// The atom so many times.
fn multiple_of_atom(
    alloc: Global,
    store: &TermStore,
    atom: usize,
    times: i128,
) -> Result<IdForm, NoMemory>
    requires atom { atom < length store.now }
    requires times { forms.is_within times ≡ true }
    ensures form { IfOk result (λ f. IsForm store.now f (forms.scaled times (forms.atom_form (tree_at store.now atom)))) }
    ensures small { IfOk result (λ f. IsSmall store.now f) }
{
    let form = IdForm::of_atom(alloc, atom)?;
    form.times(alloc, times)
}

/// `a - c * t`, where `t` is the quotient of `a` by `c`.
pub fn rest_of(
    alloc: Global,
    store: &TermStore,
    entries: &[Entry],
    a: usize,
    c: i128,
    quotient: usize,
) -> Result<IdForm, NoMemory>
    requires entries { AreEntries store.now entries.now }
    requires dividend { a < length entries.now }
    requires narrow { forms.is_narrow (tree_at store.now a) ≡ true }
    requires divisor { forms.is_within c ≡ true }
    requires atom { quotient < length store.now }
    ensures form { IfOk result (λ f. IsForm store.now f (row_specs.rest_form (tree_at store.now a) c (tree_at store.now quotient))) }
    ensures room { IfOk result (λ f. HasRoom f) }
{
    let multiple = multiple_of_atom(alloc, store, quotient, opposite(c))?;
    let dividend = form_there(store, entries, a);
    sum(alloc, store, dividend, &multiple)
}

fn opposite(z: i128) -> i128
    requires { forms.is_within z ≡ true }
    ensures { result ≡ neg_ℤ z }
{
    -z
}
