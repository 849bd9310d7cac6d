//! Which methods a method calls.
#![tactic(auto)]

mod calls;

pub use calls::method_calls;

/// Want of memory.
pub type NoMemory = std::alloc::AllocError;
