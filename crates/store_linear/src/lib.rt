//! The linear form of each term of a store, worked out once: the form of `tree_forms`, or Wide where the term is not narrow.
#![tactic(auto)]

mod atoms;
mod entry;
mod table;

pub use store_entries::{Entry, IdForm, IdPart};
pub use table::FormTable;

/// Want of memory.
pub type NoMemory = std::alloc::AllocError;
