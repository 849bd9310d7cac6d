//! What holds of the sequents of a leg: laws of the definitions in `leg_rules`.
//!
//! The functions have no code: each one's contract is a law, so that the check of this crate proves it.
#![tactic(auto)]

pub mod laws;
