//! The keys of all legs of a program, in the order of its methods.
#![tactic(auto)]

mod keys;

pub use keys::program_keys;

/// Want of memory.
pub type NoMemory = std::alloc::AllocError;
