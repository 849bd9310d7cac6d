//! Whether a leg is well formed.
#![tactic(auto)]

mod checking;
pub mod laws;

pub use checking::is_well_formed;

/// Want of memory.
pub type NoMemory = std::alloc::AllocError;
