//! Sequents over a store, with opened goals, and with facts that are taken apart.
#![tactic(auto)]

mod conjuncts;
mod opening;
mod tables;

pub use conjuncts::take_facts_apart;
pub use opening::{Range, open, range_at};
pub use tables::{Tables, substitute_first};

/// Want of memory.
pub type NoMemory = std::alloc::AllocError;
