ghost use Rattle.std.specs.Prelude.{◌≡◌, ◌^◌, ◌≤◌, ◌<◌, length, IfOk, OnOk, true, map, unsigned_abs};
ghost use Rattle.std.specs.List.{list_all};
ghost use Rattle.tree_forms.specs.Form as forms;
ghost use Rattle.term_store.specs.Store.{tree_at};
ghost use Rattle.store_forms.specs.Form.{part_at, form_at, HaveAtoms, AreParts, IsForm, IsSmall, small_numbers};
ghost use Rattle.store_forms.specs.Place.{TimesOfWithin, multiplied};
ghost use Rattle.term_nodes.specs.declared.node.Node.{Node};
ghost use Rattle.std.specs.Prelude.{List};

use crate::form::{IdForm, IdPart};
use crate::parts::{insert_part, part_there};
use crate::{NoMemory, numbers};
use std::alloc::Global;
use term_store::TermStore;

impl IdForm {
    pub fn of_constant(alloc: Global, constant: i128) -> IdForm
        ensures { (store : List Node) → IsForm store result (forms.constant_form constant) }
    {
        IdForm {
            parts: Vec::new(alloc),
            constant,
        }
    }

    /// The atom alone, once.
    pub fn of_atom(alloc: Global, atom: usize) -> Result<IdForm, NoMemory>
        ensures { IfOk result (λ f. (store : List Node) → atom < length store → IsForm store f (forms.atom_form (tree_at store atom))) }
    {
        let part = IdPart { atom, times: 1 };
        let parts = Vec::from_slice(alloc, &[part])?;
        Ok(IdForm { parts, constant: 0 })
    }

    pub(crate) fn is_constant(&self) -> bool
        ensures { (store : List Node) → result ≡ forms.is_constant (form_at store self.now) }
    {
        self.parts.is_empty()
    }

    /// Whether each number is within 2^60.
    pub fn has_small_numbers(&self) -> bool
        ensures { result ≡ small_numbers self.now }
    {
        if !are_small(self.parts.as_slice()) {
            return false;
        }
        numbers::is_within(self.constant)
    }

    /// The sum of two forms.
    pub fn plus(&self, alloc: Global, store: &TermStore, other: &IdForm) -> Result<IdForm, NoMemory>
        requires first { IsSmall store.now self.now }
        requires second { IsSmall store.now other.now }
        ensures { IfOk result (λ f. IsForm store.now f (forms.plus (form_at store.now self.now) (form_at store.now other.now))) }
    {
        let constant = numbers::sum(self.constant, other.constant);
        let parts = with_all(alloc, store, self.parts.as_slice(), other.parts.as_slice())?;
        Ok(IdForm { parts, constant })
    }

    /// The form taken so many times.
    pub fn times(&self, alloc: Global, by: i128) -> Result<IdForm, NoMemory>
        requires small { small_numbers self.now ≡ true }
        requires factor { forms.is_within by ≡ true }
        ensures { IfOk result (λ f. (store : List Node) → HaveAtoms store self.now.parts.items → IsForm store f (forms.scaled by (form_at store self.now))) }
    {
        if by == 0 {
            return Ok(IdForm::of_constant(alloc, 0));
        }
        let constant = numbers::product(by, self.constant);
        let parts = multiples(alloc, self.parts.as_slice(), by)?;
        Ok(IdForm { parts, constant })
    }
}

fn are_small(parts: &[IdPart]) -> bool
    ensures { result ≡ list_all (λ p. forms.is_within p.times) parts.now }
{
    parts.iter().all(|p| numbers::is_within(p.times))
}

/// The parts, with all the others at their places.
fn with_all(
    alloc: Global,
    store: &TermStore,
    parts: &[IdPart],
    others: &[IdPart],
) -> Result<Vec<IdPart>, NoMemory>
    requires atoms { HaveAtoms store.now parts.now }
    requires other_atoms { HaveAtoms store.now others.now }
    requires first { TimesOfWithin (2 ^ 60) parts.now }
    requires second { TimesOfWithin (2 ^ 60) others.now }
    ensures { IfOk result (λ v. AreParts store.now v.items (forms.all_inserted (map (part_at store.now) others.now) (map (part_at store.now) parts.now))) }
{
    let mut all = Vec::from_slice(alloc, parts)?;
    match add_all(store, &mut all, others) {
        Ok(()) => Ok(all),
        Err(e) => Err(e),
    }
}

/// Takes all the others into the parts.
fn add_all(store: &TermStore, parts: &mut Vec<IdPart>, others: &[IdPart]) -> Result<(), NoMemory>
    requires atoms { HaveAtoms store.now parts.old.items }
    requires other_atoms { HaveAtoms store.now others.now }
    requires first { TimesOfWithin (2 ^ 60) parts.old.items }
    requires second { TimesOfWithin (2 ^ 60) others.now }
    ensures { OnOk result
        (AreParts store.now parts.new.items (forms.all_inserted (map (part_at store.now) others.now) (map (part_at store.now) parts.old.items))) }
{
    for count in 0..others.len() {
        let part = part_there(others, others.len() - 1 - count);
        insert_part(store, parts, part)?;
    }
    Ok(())
}

fn multiples(alloc: Global, parts: &[IdPart], by: i128) -> Result<Vec<IdPart>, NoMemory>
    requires small { TimesOfWithin (2 ^ 60) parts.now }
    requires factor { unsigned_abs by ≤ 2 ^ 60 }
    ensures { IfOk result (λ v. v.items ≡ map (multiplied by) parts.now) }
{
    let mut all = Vec::new(alloc);
    for part in parts {
        all.push(multiple(*part, by))?;
    }
    Ok(all)
}

fn multiple(part: IdPart, by: i128) -> IdPart
    requires small { unsigned_abs part.times ≤ 2 ^ 60 }
    requires factor { unsigned_abs by ≤ 2 ^ 60 }
    ensures { result ≡ multiplied by part }
{
    IdPart {
        atom: part.atom,
        times: numbers::product(by, part.times),
    }
}
