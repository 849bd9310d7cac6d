//! What stands in front of a method's body in the typed program: its parameters, its result and what it modifies.
#![tactic(auto)]

mod headers;
mod modified;
mod parameters;

pub use headers::{Header, made_header};
pub use modified::made_modifies;

/// Want of memory, or of numbers that fit.
pub type NoMemory = std::alloc::AllocError;
