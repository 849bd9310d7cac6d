//! Copies, measures and the order of terms.
#![tactic(auto)]

mod comparing;
mod copying;
mod measuring;

pub use comparing::{compare, compare_heads};
pub use copying::copy;
pub use measuring::{TermSize, measure};

/// Want of memory.
pub type NoMemory = std::alloc::AllocError;
