//! Whether the numbers of each term of a store that stand outside the bodies of its quantifiers have forms, worked out once.
#![tactic(auto)]

mod shapes;
mod table;

pub use table::OutsideTable;

/// Want of memory.
pub type NoMemory = std::alloc::AllocError;
