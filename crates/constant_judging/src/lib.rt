//! What is found at a constant of a text: its type, if it has one, and the first of its faults.
#![tactic(auto)]

mod applied;
mod judged;

pub use judged::judged_const;

/// Want of memory.
pub type NoMemory = std::alloc::AllocError;
