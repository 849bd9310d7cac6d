//! The machine says of bytes all that the grammar does: their first fault, or their tree.
//!
//! The functions have no code: each one's contract is a law, so that the check of this crate proves it.
#![tactic(auto)]

pub mod laws;
