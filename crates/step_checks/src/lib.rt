//! Whether the claims and the steps of a leg are well typed and well formed.
#![tactic(auto)]

mod claims;
pub mod laws;
mod steps;

pub use claims::claim_passes;
pub use steps::steps_pass;

/// Want of memory.
pub type NoMemory = std::alloc::AllocError;
