//! The check of the texts of a project by many threads, over the keys of its legs: the same report, whatever their number.
#![tactic(auto)]

mod answers;
mod fresh;
mod lines;

pub use fresh::check_fresh;

/// Want of memory.
pub type NoMemory = std::alloc::AllocError;
