ghost use Rattle.std.specs.Prelude.{◌≡◌, [], OnOk, length, option_copied, take};
ghost use Rattle.name_maps.specs.Names.{is_named, named, with_name};

use indexmap::IndexMap;
use std::alloc::{AllocError, Global};
use std::marker::Model;

/// A value for each of some names, in the order in which the names were added. Contracts see the list of both.
#[derive(Drop)]
pub struct NameMap<X> {
    table: IndexMap<String, X>,
}

impl<X> Model for NameMap<X> {
    ghost use Rattle.std.specs.Prelude.{ℕ, List, map};
    ghost use Rattle.name_maps.specs.Names.{entry_of};

    ghost Value = { List (List ℕ × X) };

    ghost view = { λ t. map entry_of t.table.entries };
}

impl<X: Drop> NameMap<X> {
    pub fn new(alloc: Global) -> NameMap<X>
        ensures { result ≡ [] }
    {
        NameMap {
            table: IndexMap::new(alloc),
        }
    }

    /// How many names there are.
    pub fn len(&self) -> usize
        ensures { result ≡ length self.now }
    {
        self.table.len()
    }

    /// Whether the name is there.
    pub fn contains(&self, name: &str) -> bool
        ensures { result ≡ is_named self.now name.now }
    {
        self.table.contains_key(name)
    }

    /// The value of a name.
    pub fn find(&self, name: &str) -> Option<&X>
        ensures { option_copied result ≡ named self.now name.now }
    {
        self.table.get(name)
    }

    /// Adds a name with its value at the end. A name that is there keeps its value.
    pub fn add(&mut self, alloc: Global, name: &str, value: X) -> Result<(), AllocError>
        ensures { OnOk result (self.new ≡ with_name self.old name.now value) }
    {
        if self.contains(name) {
            return Ok(());
        }
        let name = String::from_str(alloc, name)?;
        self.table.insert(name, value)?;
        Ok(())
    }

    /// Takes back all names but the first ones.
    pub fn leave(&mut self, count: usize)
        ensures { self.new ≡ take count self.old }
    {
        self.table.truncate(count);
    }
}
