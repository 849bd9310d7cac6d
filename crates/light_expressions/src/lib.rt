//! What is printed lightly of an expression adds no more to the weights of a text than any other text of the same tree, as a law.
//!
//! The function has no code: its contract is the law, so that the check of this crate proves it.
#![tactic(auto)]

pub mod laws;
