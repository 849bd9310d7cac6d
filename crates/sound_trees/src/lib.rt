//! The tree of a text has names of the text alone, and no number that is too large, as a law.
//!
//! The function has no code: its contract is a law, so that the check of this crate proves it.
#![tactic(auto)]

pub mod laws;
