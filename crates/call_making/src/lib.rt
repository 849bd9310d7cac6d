//! Calls and assignments of a text as statements of the typed program, with their nodes.
#![tactic(auto)]

mod assigning;
mod calling;
mod sides;

pub use assigning::assigned;
pub use calling::called;

/// Want of memory, or of numbers that fit.
pub type NoMemory = std::alloc::AllocError;
