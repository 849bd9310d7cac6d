ghost use Rattle.std.specs.Prelude.{◌≡◌, ◌<◌, None, Some, length, OnOk, OnErr};
ghost use Rattle.std.specs.BTreeMap.{get, IsUnchanged, Updates};
ghost use Rattle.store_substitution.specs.Table.{site_cmp, AreSubstituted};
ghost use Rattle.term_nodes.specs.declared.node.Node.{Node};
ghost use Rattle.std.specs.Prelude.{List};

use crate::NoMemory;
use std::alloc::Global;
use std::collections::BTreeMap;

/// A term, the bound variable in whose place another is put, and that other.
#[derive(Clone, Copy, Debug, PartialEq, Eq, PartialOrd, Ord)]
pub struct Site {
    pub term: usize,
    pub variable: u64,
    pub by: usize,
}

/// Which substitutions in the terms of a store were worked out, and their numbers.
#[derive(Drop)]
pub struct Substitutions {
    numbers: BTreeMap<Site, usize>,
}

impl Substitutions {
    pub fn new(alloc: Global) -> Substitutions
        ensures { (store : List Node) → AreSubstituted store result }
    {
        Substitutions {
            numbers: BTreeMap::new(alloc),
        }
    }

    /// The number of the substitution, where it was worked out.
    pub(crate) fn find(&self, site: Site) -> Option<usize>
        ensures { result ≡ get site_cmp self.now.numbers site }
    {
        self.numbers.get(&site).copied()
    }

    pub(crate) fn keep(&mut self, site: Site, number: usize) -> Result<(), NoMemory>
        ensures ok { OnOk result (Updates site_cmp self.old.numbers self.new.numbers site (Some number)) }
        ensures err { OnErr result (IsUnchanged self.old.numbers self.new.numbers) }
    {
        self.numbers.insert(site, number)?;
        Ok(())
    }
}
