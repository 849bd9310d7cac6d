//! One step of a run with a stack of frames: a statement is begun, a loop tests, a block ends or a method ends.
#![tactic(auto)]

mod entering;
mod frame;
mod looping;
mod places;
mod returning;
mod starting;
mod stepping;

pub use frame::{Frame, Run, Turn};
pub use stepping::step;

/// Want of memory.
pub type NoMemory = std::alloc::AllocError;
