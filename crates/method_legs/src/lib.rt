//! The legs of the methods of a well-typed program are well typed: a law of the definitions in `leg_rules` and `typed_programs`.
//!
//! The functions have no code: each one's contract is a law, so that the check of this crate proves it.
#![tactic(auto)]

pub mod laws;
