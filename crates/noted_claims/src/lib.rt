//! Claims of the typed program with their nodes, from expressions of a text.
#![tactic(auto)]

mod noting;
mod places;

pub use noting::{all_noted, noted};

/// Want of memory, or of numbers that fit.
pub type NoMemory = std::alloc::AllocError;
