//! The code of the typed program from the statements of a text, with its nodes and its locals.
#![tactic(auto)]

mod leaving;
mod making;
mod parts;

pub use making::made_code;

/// Want of memory, or of numbers that fit.
pub type NoMemory = std::alloc::AllocError;
