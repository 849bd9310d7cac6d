//! The sorts of the variables and of the records of a leg, in place of their types.
#![tactic(auto)]

mod copying;
mod sorts;

pub use copying::{copy_records, copy_sorts};
pub use sorts::{record_sorts, sort_of, sorts_of};

/// Want of memory.
pub type NoMemory = std::alloc::AllocError;
