//! The term of a claim, read part by part: laws of the definitions in `leg_rules`.
//!
//! The function has no code: its contract is a law, so that the check of this crate proves it.
#![tactic(auto)]

pub mod laws;
