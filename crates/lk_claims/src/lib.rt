//! Types, claims and the steps of a proof: what plain data they are, by which operator and parts, and how to make them.
#![tactic(auto)]

mod claim;
mod copying;
mod make;
mod operator;
mod shape;
mod step;
mod ty;

pub use claim::Claim;
pub use operator::{connective, is_exchanged, is_negated};
pub use shape::Shape;
pub use step::ProofStep;
pub use ty::Ty;

/// Want of memory.
pub type NoMemory = std::alloc::AllocError;
