//! Methods of the typed program from those of a text, with their nodes.
#![tactic(auto)]

mod bodies;
mod methods;
mod numbers;
mod parts;
mod returns;

pub use bodies::Body;
pub use methods::made_method;
pub use parts::Parts;

/// Want of memory, or of numbers that fit.
pub type NoMemory = std::alloc::AllocError;
