//! The truth value of a claim of the program, or where its test stops.
#![tactic(auto)]

mod bounds;
mod ending;
mod forms;
mod made;
mod visiting;

pub use ending::ClaimEnd;
pub use visiting::eval_claim;

/// Want of memory.
pub type NoMemory = std::alloc::AllocError;
