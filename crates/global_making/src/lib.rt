//! Globals of the typed program from those of a text, with the nodes of their constants.
#![tactic(auto)]

mod globals;

pub use globals::made_global;

/// Want of memory, or of numbers that fit.
pub type NoMemory = std::alloc::AllocError;
