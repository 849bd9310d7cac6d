//! Answers by keys: a key has one answer, and a method's verdict is that of the answers to the keys of its legs.
//!
//! The functions have no code: each one's contract is a law, so that the check of this crate proves it.
#![tactic(auto)]

pub mod laws;
