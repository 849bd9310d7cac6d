//! The command `run` over the texts of a project: a method is run from words, with its contracts tested, and what is written of it is that of the
//! definition of runs.
#![tactic(auto)]

mod command;

pub use command::{NO_FIT, Ran, run_texts};

/// Want of memory.
pub type NoMemory = std::alloc::AllocError;
