//! The terms of a claim and of the steps of a proof, at a place of a leg, where they are within the limits.
#![tactic(auto)]

mod block;
mod end;
mod line;
mod small;
mod steps;

pub use end::ItemEnd;
pub use small::read_small;
pub use steps::read_steps;

/// Want of memory.
pub type NoMemory = std::alloc::AllocError;
