//! Literals over a store that cannot hold together, as they stand.
#![tactic(auto)]

mod finding;
mod negations;
mod pairs;

pub use finding::{false_literal, opposites};

/// Want of memory.
pub type NoMemory = std::alloc::AllocError;
