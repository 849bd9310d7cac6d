//! What is wrong with the names of variables that are changed: those that are assigned, those of a Modifies, and calls that stand alone.
#![tactic(auto)]

mod calling;
mod changing;
mod modifying;
mod targets;

pub use changing::{assignment, call};
pub use modifying::{MayBeNamed, modifies};

/// Want of memory.
pub type NoMemory = std::alloc::AllocError;
