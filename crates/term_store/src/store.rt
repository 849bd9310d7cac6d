use crate::NoMemory;
use crate::entry::Entry;
use crate::growing::{add_entry, find, measure_over};
use crate::measure::Measure;
use sqlite_items::Items;
use std::alloc::Global;
use std::collections::BTreeMap;
use std::marker::Model;
use term_nodes::{Key, Node, node_over};
use term_trees::Term;

/// Terms as numbers: a list of distinct nodes. A number is a place in it, and stands for a tree.
#[derive(Drop)]
pub struct TermStore {
    alloc: Global,
    entries: Vec<Entry>,
    places: BTreeMap<Key, usize>,
}

impl Model for TermStore {
    ghost use Rattle.std.specs.Prelude.{List};
    ghost use Rattle.term_nodes.specs.declared.node.Node.{Node};
    ghost use Rattle.std.specs.Coded.{coded_list};
    ghost use Rattle.term_nodes.specs.contracts.node.Node as node;

    ghost Value = { List Node };

    ghost coded = { coded_list node.the_row.coded };

    ghost use Rattle.term_store.specs.Inside.{nodes_in, IsWhole};

    ghost view = { λ s. nodes_in s.entries.items };

    ghost invariant = { λ s. IsWhole s.entries.items s.places };
}

impl TermStore {
    ghost use Rattle.std.specs.Prelude.{◌≡◌, ◌<◌, [], length, slice_get, Some, IfOk, OnOk, OnErr};
    ghost use Rattle.slang_values.specs.Tree.{parts};
    ghost use Rattle.term_trees.specs.Term.{tree};
    ghost use Rattle.term_nodes.specs.Node.{node_tree, numbers};
    ghost use Rattle.term_store.specs.Store.{stored, tree_at, Holds, AreWithin, IsPlaced, IsStore, IsMeasureOf, GainsAmong, GainsAtMost, AreTreesOf, subtrees};

    pub fn new(alloc: Global) -> TermStore
        ensures { result ≡ [] }
    {
        TermStore {
            alloc,
            entries: Vec::new(alloc),
            places: BTreeMap::new(alloc),
        }
    }

    /// How many trees the store has.
    pub fn len(&self) -> usize
        ensures count { result ≡ length self.now }
        ensures is_store { IsStore self.now }
    {
        self.entries.len()
    }

    /// The node with that number.
    pub fn view(&self, id: usize) -> &Node
        requires { id < length self.now }
        ensures node { slice_get self.now id ≡ Some result.now }
        ensures placed { IsPlaced self.now id result.now }
    {
        &self.entries[id].node
    }

    /// How large the tree with that number is.
    pub fn measure(&self, id: usize) -> Measure
        requires { id < length self.now }
        ensures { IsMeasureOf (tree_at self.now id) result }
    {
        self.entries[id].measure
    }

    /// The number of the tree with this operator and the trees of these numbers as parts, which is added where it is lacked.
    pub fn add_node(&mut self, node: Node) -> Result<usize, NoMemory>
        requires { AreWithin self.old (numbers node) }
        ensures number { IfOk result (λ id. Holds self.new id (node_tree (stored self.old) node)) }
        ensures gains { OnOk result (GainsAtMost node self.old self.new) }
        ensures err { OnErr result (self.new ≡ self.old) }
        ensures is_store { IsStore self.new }
    {
        let key = Key::of(self.alloc, &node)?;
        match find(&self.places, &key) {
            Some(id) => Ok(id),
            None => {
                let measure = measure_over(&self.entries, key.parts());
                let entry = Entry { node, measure };
                add_entry(&mut self.entries, &mut self.places, entry, key)
            }
        }
    }

    /// The number of the term. The subtrees that the store lacks are added, and nothing else.
    #[cycle(add)]
    pub fn add(&mut self, term: &Term) -> Result<usize, NoMemory>
        ensures number { IfOk result (λ id. Holds self.new id (tree term.now)) }
        ensures gains { GainsAmong self.old self.new (subtrees (tree term.now)) }
        ensures is_store { IsStore self.new }
    {
        let ids = self.add_parts(term)?;
        let node = node_over(self.alloc, term, ids.as_slice())?;
        self.add_node(node)
    }

    /// The numbers of the term's parts.
    #[cycle(add)]
    fn add_parts(&mut self, term: &Term) -> Result<Items<usize>, NoMemory>
        ensures trees { IfOk result (λ ids. AreTreesOf self.new ids (parts (tree term.now))) }
        ensures gains { GainsAmong self.old self.new (subtrees (tree term.now)) }
        ensures is_store { IsStore self.new }
    {
        let mut ids = Items::new(self.alloc);
        for place in 0..term.part_count() {
            let id = self.add(term.part(place))?;
            ids.push(id)?;
        }
        Ok(ids)
    }
}
