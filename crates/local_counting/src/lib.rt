//! How many locals the statements of a text declare.
#![tactic(auto)]

mod counting;

pub use counting::local_counts;

/// A number that does not fit.
pub type NoMemory = std::alloc::AllocError;
