//! The bytes of tokens that are laid out with gaps between them have those tokens, as a law.
//!
//! The function has no code: its contract is a law, so that the check of this crate proves it.
#![tactic(auto)]

pub mod laws;
