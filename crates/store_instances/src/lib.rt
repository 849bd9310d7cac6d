//! Instances of quantified facts over a store, one at a time.
#![tactic(auto)]

mod instances;
mod limits;

pub use instances::{add_fact, instance};
pub use limits::are_within_limits;

/// Want of memory.
pub type NoMemory = std::alloc::AllocError;
