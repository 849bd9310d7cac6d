//! A text that nests no deeper than a text may has a tree that is printed lightly so, as a law.
//!
//! The function has no code: its contract is the law, so that the check of this crate proves it.
#![tactic(auto)]

pub mod laws;
