//! From each state that the machine reaches a text can be completed, so the first token that it does not take is the first fault of a text.
//!
//! The functions have no code: each one's contract is a law, so that the check of this crate proves it.
#![tactic(auto)]

pub mod laws;
