//! The canonical tree of each term of a store, as a number, worked out once: the canonical trees of `tree_forms`.
#![tactic(auto)]

mod table;
mod terms;

pub use table::CanonicalTable;

/// Want of memory.
pub type NoMemory = std::alloc::AllocError;
