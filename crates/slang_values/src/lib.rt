//! The values of Slang's types over whole numbers without bound, and what expressions mean.
#![tactic(auto)]

pub mod laws;
mod operators;

pub use operators::{Binary, Quantifier, Unary};
