//! What it is that the legs of a method pass, which methods are in order, and what a leg and a run at the same place know of each
//! other, as definitions in `specs/`, with the law that an expression does not fail where its demands hold.
//!
//! The function has no code: its contract is a law, so that the check of this crate proves it.
#![tactic(auto)]

pub mod laws;
