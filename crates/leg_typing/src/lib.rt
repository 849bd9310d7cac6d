//! The legs of a method that are well typed over their own names are well typed over numbers: a law of the definitions in `leg_rules`.
//!
//! The functions have no code: each one's contract is a law, so that the check of this crate proves it.
#![tactic(auto)]

pub mod laws;
