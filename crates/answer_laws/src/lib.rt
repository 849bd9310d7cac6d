//! From what is shown along the legs of a method to their passing, and so from the verdict on the method: laws of the definitions in
//! `leg_rules`.
//!
//! The functions have no code: each one's contract is a law, so that the check of this crate proves it.
#![tactic(auto)]

pub mod laws;
