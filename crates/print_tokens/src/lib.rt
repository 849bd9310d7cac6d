//! What is printed of a tree that was read is read with the same tree, but for its places, as a law over bytes.
//!
//! The function has no code: its contract is a law, so that the check of this crate proves it.
#![tactic(auto)]

pub mod laws;
