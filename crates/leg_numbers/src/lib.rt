//! Legs whose variables and records are numbered by first appearance.
#![tactic(auto)]

mod claims;
mod leg;
mod numbers;
mod steps;

pub use leg::numbered;

/// Want of memory.
pub type NoMemory = std::alloc::AllocError;
