//! The terms of a store at which sequences are read or updated.
#![tactic(auto)]

mod places;

pub use places::index_terms;

/// Want of memory.
pub type NoMemory = std::alloc::AllocError;
