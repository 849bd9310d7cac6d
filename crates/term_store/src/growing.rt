ghost use Rattle.std.specs.Prelude.{◌≡◌, ℕ, ◌<◌, List, [], ◌∷◌, ◌++◌, length, map, Some, None, IfOk, OnOk, OnErr};
ghost use Rattle.std.specs.List.{AllByRecursion};
ghost use Rattle.std.specs.BTreeMap.{get, IsUnchanged, Updates};
ghost use Rattle.slang_values.specs.Tree.{Tree};
ghost use Rattle.term_store.specs.Inside.{nodes_in, AreMeasured, IsMeasureOver, IsWhole};
ghost use Rattle.term_nodes.specs.Key.{key_cmp, key_data, node_data};
ghost use Rattle.term_nodes.specs.Node.{node_tree, numbers, tree_of};
ghost use Rattle.term_store.specs.Store.{stored, tree_at, AreWithin, Holds, GainsAtMost};

use crate::NoMemory;
use crate::entry::Entry;
use crate::measure::Measure;
use std::collections::BTreeMap;
use term_nodes::Key;

/// How large a node is over the parts with these numbers.
pub fn measure_over(entries: &[Entry], parts: &[usize]) -> Measure
    requires { AllByRecursion (λ k. k < length entries.now) parts.now }
    ensures { (ts : List (Tree ℕ)) → AreMeasured ts entries.now → IsMeasureOver (map (tree_of ts) parts.now) result }
{
    let mut all = Measure::NOTHING;
    for part in parts {
        all = all.beside(entries[*part].measure);
    }
    all.above()
}

/// The number that the map has for the key.
pub fn find(places: &BTreeMap<Key, usize>, key: &Key) -> Option<usize>
    ensures { result ≡ get key_cmp places.now key.now }
{
    places.get(key).copied()
}

/// One entry more, with its place under the key, which the map lacks.
pub fn add_entry(
    entries: &mut Vec<Entry>,
    places: &mut BTreeMap<Key, usize>,
    entry: Entry,
    key: Key,
) -> Result<usize, NoMemory>
    requires whole { IsWhole entries.old.items places.old }
    requires within { AreWithin (nodes_in entries.old.items) (numbers entry.node) }
    requires key { key_data key ≡ node_data entry.node }
    requires lacking { get key_cmp places.old key ≡ None }
    requires measure { IsMeasureOver (map (tree_at (nodes_in entries.old.items)) (numbers entry.node)) entry.measure }
    ensures whole { IsWhole entries.new.items places.new }
    ensures number { IfOk result (λ id. Holds (nodes_in entries.new.items) id (node_tree (stored (nodes_in entries.old.items)) entry.node)) }
    ensures gains { OnOk result (GainsAtMost entry.node (nodes_in entries.old.items) (nodes_in entries.new.items)) }
    ensures err { OnErr result (nodes_in entries.new.items ≡ nodes_in entries.old.items) }
{
    push_entry(entries, places, entry, key)
}

/// Both lists grow, or neither.
fn push_entry(
    entries: &mut Vec<Entry>,
    places: &mut BTreeMap<Key, usize>,
    entry: Entry,
    key: Key,
) -> Result<usize, NoMemory>
    ensures number { IfOk result (λ id. id ≡ length entries.old.items) }
    ensures entry { OnOk result (entries.new.items ≡ entries.old.items ++ entry ∷ []) }
    ensures place { OnOk result (Updates key_cmp places.old places.new key (Some (length entries.old.items))) }
    ensures entries_stay { OnErr result (entries.new.items ≡ entries.old.items) }
    ensures places_stay { OnErr result (IsUnchanged places.old places.new) }
{
    entries.reserve(1)?;
    let id = entries.len();
    places.insert(key, id)?;
    entries.push_reserved(entry);
    Ok(id)
}
