//! How printed texts are laid out: two blanks a level, a contract, an invariant and the steps of a proof with one part a line. As a law: the
//! tokens that are laid out are those of the account.
//!
//! The function has no code: its contract is a law, so that the check of this crate proves it.
#![tactic(auto)]

pub mod laws;
