//! The leg of a key: steps, items and legs, read from the bytes.
#![tactic(auto)]

mod codes;
mod items;
mod legs;
mod steps;

pub use legs::read_key;

/// Want of memory.
pub type NoMemory = std::alloc::AllocError;
