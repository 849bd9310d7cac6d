//! The files of a project in the order of their names, their declarations, and the numbers of the methods.
#![tactic(auto)]

mod files;
mod numbers;

pub use files::{declarations, in_order};
pub use numbers::{method_numbers, method_of};

/// Want of memory.
pub type NoMemory = std::alloc::AllocError;
