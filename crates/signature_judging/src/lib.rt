//! The types of a method's parameters and of its result, and its signature.
#![tactic(auto)]

mod header;
mod signing;

pub use header::header_types;
pub use signing::{modified_texts, signature};

/// Want of memory.
pub type NoMemory = std::alloc::AllocError;
