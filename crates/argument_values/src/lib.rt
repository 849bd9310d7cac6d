//! Constants of a given type, read from tokens.
#![tactic(auto)]

mod constants;

pub use argument_scalars::Read;
pub use constants::const_at;

/// Want of memory.
pub type NoMemory = std::alloc::AllocError;
