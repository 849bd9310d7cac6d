//! Closing one case of literals of a store: by a literal that is false, by two that are opposites, or by a certificate that its rows
//! have no whole-number solution.
#![tactic(auto)]

mod apart;
mod end;
mod found;
mod leaf;
mod proof;
mod work;

pub use end::LeafEnd;
pub use leaf::close_leaf;
pub use proof::LeafProof;
pub use work::{Workings, is_narrow_outside};

/// Want of memory.
pub type NoMemory = std::alloc::AllocError;
