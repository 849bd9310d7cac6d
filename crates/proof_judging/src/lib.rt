//! What is wrong with a proof: with the labels of its steps, and with the steps.
#![tactic(auto)]

mod proving;
mod repeating;
mod step_labels;

pub use proving::proof;

/// Want of memory.
pub type NoMemory = std::alloc::AllocError;
