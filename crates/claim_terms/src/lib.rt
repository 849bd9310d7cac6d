//! The term of a claim at a place of a leg, as a number of a store, and whether it is within the limits.
#![tactic(auto)]

mod reading;
mod size;

pub use reading::read_claim;
pub use size::is_small;

/// Want of memory.
pub type NoMemory = std::alloc::AllocError;
