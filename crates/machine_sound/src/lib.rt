//! What the machine reads, the grammar of Slang accounts for with the same tree.
//!
//! The functions have no code: each one's contract is a law, so that the check of this crate proves it.
#![tactic(auto)]

pub mod laws;
