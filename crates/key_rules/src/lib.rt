//! Keys: the bytes of a leg, as a definition, the leg of such bytes, and that each is the other's inverse.
//!
//! The functions have no code: each one's contract is a law, so that the check of this crate proves it.
#![tactic(auto)]

pub mod laws;
