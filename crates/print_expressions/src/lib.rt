//! How the expressions of a tree are printed, as an account in the grammar with brackets only where they are needed, as laws: what is printed
//! reads back to the same tree without places, and no other text of that tree is shorter.
//!
//! The functions have no code: each one's contract is a law, so that the check of this crate proves it.
#![tactic(auto)]

pub mod laws;
