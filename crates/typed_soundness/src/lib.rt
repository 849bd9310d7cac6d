//! In a well-typed program no run of a method fails where the legs of all methods that it reaches pass, as a law that is tried on
//! small programs.
//!
//! The functions have no code: each one's contract is a law, so that the check of this crate proves it.
#![tactic(auto)]

pub mod laws;
