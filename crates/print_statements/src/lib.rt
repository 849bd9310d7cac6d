//! How the statements and proofs of a tree are printed, as accounts in the grammar, as a law: what is printed reads back to the same tree
//! without places.
//!
//! The function has no code: its contract is a law, so that the check of this crate proves it.
#![tactic(auto)]

pub mod laws;
