//! How deep a reader of keys need go: no well-formed leg is deeper than a limit, so a reader may stop there.
//!
//! The functions have no code: each one's contract is a law, so that the check of this crate proves it.
#![tactic(auto)]

pub mod laws;
