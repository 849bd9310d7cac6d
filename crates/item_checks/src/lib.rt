//! Whether the items of a leg are well typed and well formed.
#![tactic(auto)]

mod items;
mod labels;
pub mod laws;

pub use items::items_pass;

/// Want of memory.
pub type NoMemory = std::alloc::AllocError;
