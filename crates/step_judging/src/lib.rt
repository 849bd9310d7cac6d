//! What is wrong with the steps of a proof.
#![tactic(auto)]

mod rules;
mod steps;

pub use steps::judged_steps;

/// Want of memory.
pub type NoMemory = std::alloc::AllocError;
