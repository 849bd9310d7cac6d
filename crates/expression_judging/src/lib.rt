//! What is found at an expression of a text: its type, if it has one, and the first of its faults.
#![tactic(auto)]

mod callee;
mod judging;

pub use judging::{judged, judged_each};

/// Want of memory.
pub type NoMemory = std::alloc::AllocError;
