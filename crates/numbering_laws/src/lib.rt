//! Where a leg passes whose variables and records are numbered, the leg passes over its own names: laws of the definitions in `leg_rules`
//! and `leg_soundness`.
//!
//! The functions have no code: each one's contract is a law, so that the check of this crate proves it.
#![tactic(auto)]

pub mod laws;
