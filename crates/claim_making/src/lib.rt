//! Claims of the typed program from expressions of a text.
#![tactic(auto)]

mod forms;
mod making;
mod naming;

pub use making::{made_claim, made_claims};

/// Want of memory, or of numbers that fit.
pub type NoMemory = std::alloc::AllocError;
