use crate::NoMemory;
use crate::atoms::{Atom, insert_all};
use crate::row::IdRow;
use std::alloc::Global;
use term_store::TermStore;

/// Rows, and their atoms in order, each once.
#[derive(Drop)]
pub struct System {
    pub rows: Vec<IdRow>,
    pub atoms: Vec<Atom>,
}

impl System {
    ghost use Rattle.std.specs.Prelude.{◌≡◌, [], IfOk, OnOk};
    ghost use Rattle.store_atoms.specs.Views.{rows_at, RowsWithin};
    ghost use Rattle.store_atoms.specs.Atoms.{done_trees};
    ghost use Rattle.store_atoms.specs.Systems.{IsInStep, HasMore};

    pub fn of(alloc: Global, store: &TermStore, rows: Vec<IdRow>) -> Result<System, NoMemory>
        requires { RowsWithin store.now rows.items }
        ensures rows { IfOk result (λ s. rows_at store.now s.rows.items ≡ rows_at store.now rows.items) }
        ensures in_step { IfOk result (IsInStep store.now) }
        ensures done { IfOk result (λ s. done_trees store.now s.atoms.items ≡ []) }
    {
        let mut system = System {
            rows: Vec::new(alloc),
            atoms: Vec::new(alloc),
        };
        system.add(store, rows)?;
        Ok(system)
    }

    /// Adds rows, and their atoms.
    pub fn add(&mut self, store: &TermStore, rows: Vec<IdRow>) -> Result<(), NoMemory>
        requires in_step { IsInStep store.now self.old }
        requires rows { RowsWithin store.now rows.items }
        ensures { OnOk result (HasMore store.now self.old self.new (rows_at store.now rows.items)) }
    {
        for row in &rows {
            insert_all(store, &mut self.atoms, &row.parts)?;
        }
        let mut more = rows;
        self.rows.append(&mut more)?;
        Ok(())
    }
}
