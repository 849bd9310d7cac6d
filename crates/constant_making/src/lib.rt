//! Constants of a text as expressions of the typed program, with their nodes.
#![tactic(auto)]

mod making;
mod types;

pub use making::{constant_of, constants_of};

/// Want of memory, or of numbers that fit.
pub type NoMemory = std::alloc::AllocError;
