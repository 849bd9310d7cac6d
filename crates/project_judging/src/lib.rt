//! The first fault of each file of a project that has one.
#![tactic(auto)]

mod files;
mod project;

pub use project::first_faults;

/// Want of memory.
pub type NoMemory = std::alloc::AllocError;
