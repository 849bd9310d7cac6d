//! What the names of declarations mean.
#![tactic(auto)]

mod globals;
mod meaning;
mod table;

pub use table::meanings;

/// Want of memory.
pub type NoMemory = std::alloc::AllocError;
