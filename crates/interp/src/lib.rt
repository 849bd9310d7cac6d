//! Runs of a method with its contracts tested, turn by turn: a machine that is given turns in any division goes the way of the run of their sum.
#![tactic(auto)]

mod going;
pub mod laws;
mod machine;
mod turned;

pub use machine::Machine;
pub use turned::Turned;

/// Want of memory.
pub type NoMemory = std::alloc::AllocError;
