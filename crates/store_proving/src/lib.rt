//! Closing a sequent over a store: its instances, its cases, and a proof for each of its leaves.
#![tactic(auto)]

mod ending;
mod proving;

pub use ending::ProveEnd;
pub use proving::{Proved, prove_ids};
pub use store_leaves::LeafProof;

/// Want of memory.
pub type NoMemory = std::alloc::AllocError;
