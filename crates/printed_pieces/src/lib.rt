//! What is printed of a file is laid out so that its tokens may stand beside each other, as a law.
//!
//! The function has no code: its contract is a law, so that the check of this crate proves it.
#![tactic(auto)]

pub mod laws;
