//! What is wrong with the header of a method: its parameters, its result and its contract.
#![tactic(auto)]

mod headers;
mod parameters;

pub use headers::judged_header;

/// Want of memory.
pub type NoMemory = std::alloc::AllocError;
