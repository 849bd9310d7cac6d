//! Laws of the rules of typing and of the typed program: an expression has a type exactly where it has no fault, and the claims and
//! values of a text are well typed in the program.
//!
//! The functions have no code: each one's contract is a law, so that the check of this crate proves it.
#![tactic(auto)]

pub mod laws;
