//! The values with which a method begins, and those of its caller behind its end.
#![tactic(auto)]

mod entering;
mod returning;

pub use entering::entered;
pub use returning::returned;

/// Want of memory.
pub type NoMemory = std::alloc::AllocError;
