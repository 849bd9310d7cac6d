//! Declarations and assignments of a text as statements of the typed program, and the variables that its names mean.
#![tactic(auto)]

mod declaring;
mod targets;

pub use declaring::declared;
pub use targets::{assignment, variables_meant};

/// Want of memory, or of numbers that fit.
pub type NoMemory = std::alloc::AllocError;
