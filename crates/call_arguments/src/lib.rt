//! The values of the arguments of a method, read from words.
#![tactic(auto)]

mod arguments;

pub use arguments::read_arguments;

/// Want of memory.
pub type NoMemory = std::alloc::AllocError;
