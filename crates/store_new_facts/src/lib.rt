//! All instances of the quantified facts of a store, up to their limit.
#![tactic(auto)]

mod adding;

pub use adding::add_all_instances;

/// Want of memory.
pub type NoMemory = std::alloc::AllocError;
