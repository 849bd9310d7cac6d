//! What is wrong with the return of a method, or with its absence.
#![tactic(auto)]

mod returning;

pub use returning::judged_return;

/// Want of memory.
pub type NoMemory = std::alloc::AllocError;
