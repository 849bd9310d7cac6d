//! What is wrong with parts of statements: with a part that is to be of a type, with claims, and with names that are declared.
#![tactic(auto)]

mod claiming;
mod wanted;

pub use claiming::{claim, claims};
pub use wanted::{against, against_optional, new_name};

/// Want of memory.
pub type NoMemory = std::alloc::AllocError;
