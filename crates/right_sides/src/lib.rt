//! What is found at the right side of a `val`, a `var` or an assignment, which may be a call.
#![tactic(auto)]

mod called;
mod sides;

pub use sides::judged_right;

/// Want of memory.
pub type NoMemory = std::alloc::AllocError;
