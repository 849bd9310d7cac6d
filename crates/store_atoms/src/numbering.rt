ghost use Rattle.std.specs.Prelude.{◌≡◌, ◌<◌, IfOk, IfErr, length, true, map};
ghost use Rattle.closing.specs.Rows as row_specs;
ghost use Rattle.store_atoms.specs.declared.end.RowsEnd.TheVariants.{NoMemory};
ghost use Rattle.store_atoms.specs.Views.{row_at};
ghost use Rattle.store_atoms.specs.Atoms.{atom_trees, AtomsWithin, AreOrdered};
ghost use Rattle.term_store.specs.Store.{tree_at};
ghost use Rattle.store_atoms.specs.Numbered.{CanBeNumbered};
ghost use Rattle.store_forms.specs.Form.{part_at, HaveAtoms};

use crate::atoms::{Atom, find};
use crate::end::RowsEnd;
use crate::row::{IdRow, part_there};
use crate::system::System;
use lin_rows::{Row, RowPart, is_within};
use std::alloc::Global;
use store_forms::IdPart;
use term_store::TermStore;

impl System {
    ghost use Rattle.std.specs.Prelude.{◌≡◌, [], IfOk, OnOk, IsErrOf, true, false};
    ghost use Rattle.std.specs.List.{AllByRecursion, list_all};
    ghost use Rattle.lin_rows.specs.Inequality.{IsCanonical};
    ghost use Rattle.lin_rows.specs.Inequality as inequality;
    ghost use Rattle.closing.specs.Rows as row_specs;
    ghost use Rattle.store_atoms.specs.declared.end.RowsEnd.TheVariants.{Wide};
    ghost use Rattle.store_atoms.specs.Views.{rows_at};
    ghost use Rattle.store_atoms.specs.Systems.{IsInStep};

    /// The rows with their atoms numbered.
    pub fn numbered_rows(&self, alloc: Global, store: &TermStore) -> Result<Vec<Row>, RowsEnd>
        requires in_step { IsInStep store.now self.now }
        requires canonical { AllByRecursion (λ row. IsCanonical row.parts) (row_specs.numbered_rows (rows_at store.now self.now.rows.items)) }
        ensures rows { IfOk result (λ it. it.items ≡ row_specs.numbered_rows (rows_at store.now self.now.rows.items)) }
        ensures within { IfOk result (λ it. list_all inequality.is_within it.items ≡ true) }
        ensures wide { IsErrOf result Wide → list_all inequality.is_within (row_specs.numbered_rows (rows_at store.now self.now.rows.items)) ≡ false }
    {
        let mut rows = Vec::with_capacity(alloc, self.rows.len())?;
        match self.add_numbered_rows(alloc, store, &mut rows) {
            Ok(()) => Ok(rows),
            Err(end) => Err(end),
        }
    }

    /// Adds the rows with their atoms numbered to none.
    fn add_numbered_rows(
        &self,
        alloc: Global,
        store: &TermStore,
        rows: &mut Vec<Row>,
    ) -> Result<(), RowsEnd>
        requires in_step { IsInStep store.now self.now }
        requires canonical { AllByRecursion (λ row. IsCanonical row.parts) (row_specs.numbered_rows (rows_at store.now self.now.rows.items)) }
        requires empty { rows.old.items ≡ [] }
        ensures rows { OnOk result (rows.new.items ≡ row_specs.numbered_rows (rows_at store.now self.now.rows.items)) }
        ensures within { OnOk result (list_all inequality.is_within rows.new.items ≡ true) }
        ensures wide { IsErrOf result Wide → list_all inequality.is_within (row_specs.numbered_rows (rows_at store.now self.now.rows.items)) ≡ false }
    {
        for row in &self.rows {
            let numbered = numbered(alloc, store, self.atoms.as_slice(), row)?;
            if !is_within(&numbered) {
                return Err(RowsEnd::Wide);
            }
            rows.push(numbered)?;
        }
        Ok(())
    }
}

/// The row with its atoms numbered by their places among the atoms.
fn numbered(alloc: Global, store: &TermStore, atoms: &[Atom], row: &IdRow) -> Result<Row, RowsEnd>
    requires atoms { AtomsWithin store.now atoms.now }
    requires row { HaveAtoms store.now row.now.parts.items }
    requires can { CanBeNumbered (atom_trees store.now atoms.now) (row_at store.now row.now).parts }
    ensures row { IfOk result (λ it. it ≡ row_specs.numbered (atom_trees store.now atoms.now) (row_at store.now row.now)) }
    ensures err { IfErr result (λ e. e ≡ NoMemory) }
{
    let parts = numbered_parts(alloc, store, atoms, row.parts.as_slice())?;
    Ok(Row::new(parts, row.bound))
}

fn numbered_parts(
    alloc: Global,
    store: &TermStore,
    atoms: &[Atom],
    parts: &[IdPart],
) -> Result<Vec<RowPart>, RowsEnd>
    requires atoms { AtomsWithin store.now atoms.now }
    requires parts { HaveAtoms store.now parts.now }
    requires can { CanBeNumbered (atom_trees store.now atoms.now) (map (part_at store.now) parts.now) }
    ensures parts { IfOk result (λ it. it.items ≡ row_specs.numbered_parts (atom_trees store.now atoms.now) (map (part_at store.now) parts.now)) }
    ensures err { IfErr result (λ e. e ≡ NoMemory) }
{
    let mut numbered = Vec::with_capacity(alloc, parts.len())?;
    for at in 0..parts.len() {
        let part = part_there(parts, at);
        let there = numbered_part(store, atoms, part)?;
        numbered.push(there)?;
    }
    Ok(numbered)
}

fn numbered_part(store: &TermStore, atoms: &[Atom], part: IdPart) -> Result<RowPart, RowsEnd>
    requires ordered { AreOrdered (atom_trees store.now atoms.now) }
    requires within { AtomsWithin store.now atoms.now }
    requires id { part.atom < length store.now }
    requires there { row_specs.is_among (atom_trees store.now atoms.now) (tree_at store.now part.atom) ≡ true }
    ensures part { IfOk result (λ it. it ≡ record { var = row_specs.place_of (atom_trees store.now atoms.now) (tree_at store.now part.atom); times = part.times }) }
    ensures err { IfErr result (λ e. e ≡ NoMemory) }
{
    match find(store, atoms, part.atom) {
        Ok(place) => {
            if place > u32::MAX as usize {
                return Err(RowsEnd::NoMemory);
            }
            Ok(RowPart {
                var: place as u32,
                times: part.times,
            })
        }
        Err(_) => unreachable!(),
    }
}
