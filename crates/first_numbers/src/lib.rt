//! Numbers by first appearance: a count of those that have appeared tells whether the next one is in order.
//!
//! The function has no code: its contract is a law, so that the check of this crate proves it.
#![tactic(auto)]

pub mod laws;
