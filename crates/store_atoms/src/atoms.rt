ghost use Rattle.std.specs.Prelude.{◌≡◌, ◌<◌, length, slice_get, Some, OnOk, map};
ghost use Rattle.term_store.specs.Store.{tree_at};
ghost use Rattle.store_forms.specs.Form.{part_at, HaveAtoms};
ghost use Rattle.closing.specs.Rows as row_specs;
ghost use Rattle.store_atoms.specs.Atoms.{atom_trees, done_trees, AtomsWithin, AreOrdered, IsFound};

use crate::NoMemory;
use crate::row::part_there;
use std::cmp::Ordering;
use store_forms::IdPart;
use store_order::compare;
use term_store::TermStore;

/// An atom of the rows by its number.
#[derive(Clone, Copy)]
pub struct Atom {
    pub id: usize,
    /// Whether its own rows are there.
    pub is_done: bool,
}

/// The atom at a place.
pub fn atom_there(atoms: &[Atom], at: usize) -> Atom
    requires { at < length atoms.now }
    ensures { slice_get atoms.now at ≡ Some result }
{
    atoms[at]
}

/// Where the term stands among atoms in order, or else where it goes.
pub fn find(store: &TermStore, atoms: &[Atom], id: usize) -> Result<usize, usize>
    requires ordered { AreOrdered (atom_trees store.now atoms.now) }
    requires within { AtomsWithin store.now atoms.now }
    requires id { id < length store.now }
    ensures { IsFound (atom_trees store.now atoms.now) (tree_at store.now id) result }
{
    let mut low = 0;
    let mut high = atoms.len();
    'search: while low < high {
        let middle = low + (high - low) / 2;
        let atom = atom_there(atoms, middle);
        match compare(store, atom.id, id) {
            Ordering::Equal => return Ok(middle),
            Ordering::Less => {
                low = middle + 1;
                continue 'search;
            }
            Ordering::Greater => {
                high = middle;
                continue 'search;
            }
        }
    }
    Err(low)
}

/// Takes the term among the atoms, at its place, unless it is there.
fn insert(store: &TermStore, atoms: &mut Vec<Atom>, id: usize) -> Result<(), NoMemory>
    requires ordered { AreOrdered (atom_trees store.now atoms.old.items) }
    requires within { AtomsWithin store.now atoms.old.items }
    requires id { id < length store.now }
    ensures trees { OnOk result (atom_trees store.now atoms.new.items ≡ row_specs.with_atom (atom_trees store.now atoms.old.items) (tree_at store.now id)) }
    ensures within { OnOk result (AtomsWithin store.now atoms.new.items) }
    ensures done { OnOk result (done_trees store.now atoms.new.items ≡ done_trees store.now atoms.old.items) }
{
    match find(store, atoms.as_slice(), id) {
        Ok(_) => Ok(()),
        Err(at) => {
            let atom = Atom { id, is_done: false };
            atoms.insert(at, atom)?;
            Ok(())
        }
    }
}

/// Takes the atoms of a row among the atoms.
pub fn insert_all(
    store: &TermStore,
    atoms: &mut Vec<Atom>,
    parts: &[IdPart],
) -> Result<(), NoMemory>
    requires ordered { AreOrdered (atom_trees store.now atoms.old.items) }
    requires within { AtomsWithin store.now atoms.old.items }
    requires parts { HaveAtoms store.now parts.now }
    ensures trees { OnOk result (atom_trees store.now atoms.new.items
        ≡ row_specs.with_atoms (atom_trees store.now atoms.old.items) (map (λ p. p.atom) (map (part_at store.now) parts.now))) }
    ensures within { OnOk result (AtomsWithin store.now atoms.new.items) }
    ensures done { OnOk result (done_trees store.now atoms.new.items ≡ done_trees store.now atoms.old.items) }
{
    for at in 0..parts.len() {
        let part = part_there(parts, at);
        insert(store, atoms, part.atom)?;
    }
    Ok(())
}
