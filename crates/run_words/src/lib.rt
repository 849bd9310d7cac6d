//! The words of the command `run`: a method, a number of turns, and words that are arguments of some type.
#![tactic(auto)]

mod arguments;
mod counts;
mod run;

pub use arguments::is_argument;
pub use run::{RunWords, read_run};

/// Want of memory.
pub type NoMemory = std::alloc::AllocError;
