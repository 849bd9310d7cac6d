//! Claims of a text that the rules of typing find to be of a type are well typed, as a law.
//!
//! The function has no code: its contract is a law, so that the check of this crate proves it.
#![tactic(auto)]

pub mod laws;
