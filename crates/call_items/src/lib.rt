//! The items that a call puts in front of the legs of what follows it.
#![tactic(auto)]

mod call;
mod entries;

pub use call::{Call, add_call};
pub use entries::{add_entries, number};

/// Want of memory.
pub type NoMemory = std::alloc::AllocError;
