//! Where the legs of each method pass that calls lead to from a method, no run of that method fails, as a law.
//!
//! The function has no code: its contract is the law, so that the check of this crate proves it.
#![tactic(auto)]

pub mod laws;
