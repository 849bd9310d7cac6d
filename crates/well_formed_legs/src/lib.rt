//! Each leg of a method of a well-typed program is well formed: a law of the definitions in `leg_rules`, `leg_forms` and
//! `typed_programs`.
//!
//! The functions have no code: each one's contract is a law, so that the check of this crate proves it.
#![tactic(auto)]

pub mod laws;
