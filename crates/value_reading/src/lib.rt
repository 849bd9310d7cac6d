//! Values read from the words that `run` takes as arguments of a method.
#![tactic(auto)]

mod reading;

pub use reading::read_value;

/// Want of memory.
pub type NoMemory = std::alloc::AllocError;
