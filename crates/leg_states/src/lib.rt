//! What stands at a place of a leg, with terms as numbers of a store: the symbols, the terms of the variables, and the facts.
#![tactic(auto)]

mod changes;
mod reading;
mod state;
mod versions;

pub use state::LegState;

/// Want of memory.
pub type NoMemory = std::alloc::AllocError;
