//! Paths into the code of a method: which block stands at the end of one, and which statements a block has from a number on, as
//! definitions in `specs/`.
//!
//! The functions have no code: their contracts are laws, so that the check of this crate proves them.
#![tactic(auto)]

mod inside;
pub mod laws;

pub use inside::Inside;
