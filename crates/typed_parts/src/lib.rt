//! What the typed program takes from what is found at the parts of a text: what a head names, what is selected, and the type of elements.
#![tactic(auto)]

mod heads;
mod types;

pub use heads::{Head, head_named, head_of};
pub use types::{elements_ty, front_ty, known_type, selected};

/// Want of memory.
pub type NoMemory = std::alloc::AllocError;
