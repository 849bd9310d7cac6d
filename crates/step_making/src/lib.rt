//! Steps of proofs of the typed program from those of a text.
#![tactic(auto)]

mod forms;
mod making;

pub use making::made_steps;

/// Want of memory, or of numbers that fit.
pub type NoMemory = std::alloc::AllocError;
