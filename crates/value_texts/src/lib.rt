//! The text of a value, as the command `run` writes it.
#![tactic(auto)]

mod adding;
mod parts;

pub use adding::{add_value, value_text};
pub use parts::{add_number, add_text};

/// Want of memory.
pub type NoMemory = std::alloc::AllocError;
