//! What one item of a leg asks for, as numbers of a store, and the state of the leg behind it.
#![tactic(auto)]

mod asked;
mod claims;
mod item;
mod proof;
mod sequent;

pub use asked::Asked;
pub use item::take_item;
pub use step_terms::ItemEnd;

/// Want of memory.
pub type NoMemory = std::alloc::AllocError;
