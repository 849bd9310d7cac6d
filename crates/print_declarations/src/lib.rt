//! How the declarations of a tree are printed, as accounts in the grammar, as a law: the tokens that are printed of a file are in the grammar,
//! with the same tree without places.
//!
//! The function has no code: its contract is a law, so that the check of this crate proves it.
#![tactic(auto)]

pub mod laws;
