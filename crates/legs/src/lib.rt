//! The legs of a method, in order.
#![tactic(auto)]

mod all;

pub use all::{LegsEnd, legs_of};

/// Want of memory.
pub type NoMemory = std::alloc::AllocError;
