//! The instances of a sequent over a store, as another sequent.
#![tactic(auto)]

mod sequents;

pub use sequents::{instances_of, instances_with};
pub use store_instancing::InstEnd;

/// Want of memory.
pub type NoMemory = std::alloc::AllocError;
