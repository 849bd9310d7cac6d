//! The grammar of Slang: which lists of tokens are a text, with which tree, and where one that is none has its first
//! fault. Definitions in `specs/`, and their laws.
//!
//! The functions have no code: each one's contract is a law, so that the check of this crate proves it.
#![tactic(auto)]

pub mod laws;
mod operator;

pub use operator::{Infix, Prefix, Side};
