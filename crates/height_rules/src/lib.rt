//! Which expressions, constants and proofs of a text are too high, as faults beside those of names and types, and that a project without
//! any fault gives a well-typed program, as laws.
//!
//! The functions have no code: each one's contract is a law, so that the check of this crate proves it.
#![tactic(auto)]

pub mod laws;
