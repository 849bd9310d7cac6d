//! The tokens of the words that `run` takes as arguments of a method.
#![tactic(auto)]

mod words;

pub use words::word_tokens;

/// Want of memory.
pub type NoMemory = std::alloc::AllocError;
