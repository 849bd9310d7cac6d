//! Claims tested in order, up to the first that does not hold.
#![tactic(auto)]

mod testing;

pub use testing::{Tested, test_claim, test_claims};

/// Want of memory.
pub type NoMemory = std::alloc::AllocError;
