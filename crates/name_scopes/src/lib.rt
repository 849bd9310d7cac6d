//! What the names of a text mean where they stand.
#![tactic(auto)]

mod asking;
mod changing;
mod covering;
mod meaning;
mod scope;

pub use meaning::{Meaning, Method, Signature};
pub use scope::{NameScope, RecordFields};

/// Want of memory.
pub type NoMemory = std::alloc::AllocError;
