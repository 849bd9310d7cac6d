//! Methods of the typed program in the order of their names.
#![tactic(auto)]

mod sorting;

pub use sorting::sort_methods;

/// Want of memory.
pub type NoMemory = std::alloc::AllocError;
