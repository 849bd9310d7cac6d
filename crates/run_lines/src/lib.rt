//! The line that tells how a run ended, and the code of the command.
#![tactic(auto)]

mod lines;
mod nodes;

pub use lines::{run_code, run_line};

/// Want of memory.
pub type NoMemory = std::alloc::AllocError;
