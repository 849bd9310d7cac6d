//! How high the expressions of a text are, and that what comes of them in the typed program is not too high, as laws.
//!
//! The functions have no code: each one's contract is a law, so that the check of this crate proves it.
#![tactic(auto)]

pub mod laws;
