//! The parts of a node, and the node over other parts.
#![tactic(auto)]

mod parts;

pub use parts::{over_parts, parts_of};

/// Want of memory.
pub type NoMemory = std::alloc::AllocError;
