//! How deep tokens nest: whether any of them weighs more than the limit.
#![tactic(auto)]

mod counts;

pub use counts::is_light;

/// Want of memory.
pub type NoMemory = std::alloc::AllocError;
