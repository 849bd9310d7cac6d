//! Keys as numbers: a list of distinct keys, in the order in which they were first interned.
#![tactic(auto)]

mod key_store;

pub use key_store::KeyStore;

/// Want of memory.
pub type NoMemory = std::alloc::AllocError;
