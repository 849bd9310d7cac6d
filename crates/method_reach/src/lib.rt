//! The methods that calls lead to from a method of a typed program.
#![tactic(auto)]

mod reach;

pub use reach::reachable;

/// Want of memory.
pub type NoMemory = std::alloc::AllocError;
