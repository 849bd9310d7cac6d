//! Expressions of a text as expressions of the typed program, with their nodes.
#![tactic(auto)]

mod leaves;
mod making;
mod reading;

pub use leaves::{literal, truth};
pub use making::{value_of, values_of};

/// Want of memory, or of numbers that fit.
pub type NoMemory = std::alloc::AllocError;
