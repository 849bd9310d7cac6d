//! The answer for a leg, over any prover: all its items are proved, or the first that is not.
#![tactic(auto)]

mod answering;
mod base;
mod forms;
mod prover;

pub use answering::leg_answer;
pub use deduction::{CloseEnd, Prover};
pub use prover::LegProver;

/// Want of memory.
pub type NoMemory = std::alloc::AllocError;
