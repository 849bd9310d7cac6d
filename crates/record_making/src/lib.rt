//! The records of the typed program from the declarations of a project.
#![tactic(auto)]

mod fields;
mod found;
mod records;

pub use records::made_records;

/// Want of memory, or of numbers that fit.
pub type NoMemory = std::alloc::AllocError;
