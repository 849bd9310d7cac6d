//! A sequent of terms as numbers of a store.
#![tactic(auto)]

mod sequents;

pub use sequents::stored_sequent;

/// Want of memory.
pub type NoMemory = std::alloc::AllocError;
