//! Sequents over a store, with opened goals, facts taken apart and instances.
#![tactic(auto)]

mod end;
mod sequents;

pub use end::InstEnd;
pub use sequents::add_instances;

/// Want of memory.
pub type NoMemory = std::alloc::AllocError;
