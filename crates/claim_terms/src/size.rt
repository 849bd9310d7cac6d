ghost use Rattle.std.specs.Prelude.{◌≡◌, ◌<◌, ◌&&◌, nat_le, length};
ghost use Rattle.term_store.specs.Store.{tree_at};
ghost use Rattle.leg_rules.specs.Store.{is_small};

use term_store::{Measure, TermStore};

/// The most nodes of a term.
const NODE_LIMIT: u32 = 20_000;

/// The greatest height of a term.
const HEIGHT_LIMIT: u32 = 1_000;

/// Whether the term is within the limits.
pub fn is_small(store: &TermStore, id: usize) -> bool
    requires { id < length store.now }
    ensures { result ≡ is_small (tree_at store.now id) }
{
    is_within(store.measure(id))
}

fn is_within(measure: Measure) -> bool
    ensures { result ≡ (nat_le measure.nodes 20000 && nat_le measure.height 1000) }
{
    measure.nodes <= NODE_LIMIT && measure.height <= HEIGHT_LIMIT
}
