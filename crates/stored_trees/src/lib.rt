//! The trees that numbers of a store stand for.
#![tactic(auto)]

mod forms;
mod trees;

pub use trees::{term_at, terms_at};

/// Want of memory.
pub type NoMemory = std::alloc::AllocError;
