ghost use Rattle.std.specs.Prelude.{◌≡◌, ◌<◌, map, length, nat_lt};
ghost use Rattle.slang_values.specs.Measure.{node_count, height};
ghost use Rattle.std.specs.List.{list_all};
ghost use Rattle.instance_rules.specs.Instances.{is_within_limits};
ghost use Rattle.term_store.specs.Store.{tree_at, AreWithin};

use term_store::TermStore;

/// The most nodes that an instance may have.
const NODE_LIMIT: u32 = 20_000;

/// The greatest height that an instance may have.
const HEIGHT_LIMIT: u32 = 1_000;

fn has_few_nodes(store: &TermStore, id: usize) -> bool
    requires { id < length store.now }
    ensures { result ≡ nat_lt (node_count (tree_at store.now id)) 20001 }
{
    store.measure(id).nodes <= NODE_LIMIT
}

fn is_low(store: &TermStore, id: usize) -> bool
    requires { id < length store.now }
    ensures { result ≡ nat_lt (height (tree_at store.now id)) 1001 }
{
    store.measure(id).height <= HEIGHT_LIMIT
}

/// Whether a term has no more nodes and is no higher than a term may be.
fn is_within_limits(store: &TermStore, id: usize) -> bool
    requires { id < length store.now }
    ensures { result ≡ is_within_limits (tree_at store.now id) }
{
    has_few_nodes(store, id) && is_low(store, id)
}

pub fn are_within_limits(store: &TermStore, ids: &[usize]) -> bool
    requires { AreWithin store.now ids.now }
    ensures { result ≡ list_all is_within_limits (map (tree_at store.now) ids.now) }
{
    for place in 0..ids.len() {
        if !is_within_limits(store, ids[place]) {
            return false;
        }
    }
    true
}
