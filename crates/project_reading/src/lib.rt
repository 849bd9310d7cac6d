//! The texts of a project, read.
#![tactic(auto)]

mod read;
mod texts;

pub use read::{Reading, read_files};
pub use texts::NamedText;

/// Want of memory.
pub type NoMemory = std::alloc::AllocError;
