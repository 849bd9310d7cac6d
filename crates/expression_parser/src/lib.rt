//! Expressions, read token by token by recursive descent.
//!
//! Each function's contract speaks of the machine that reads a text: for each state around it, what comes of the tokens
//! from that state on is what comes of those that the function leaves, from the state that it tells of. Where it
//! refuses, the cursor stands at the token with which no text goes on.
#![tactic(auto)]

mod begin;
mod build;
mod expressions;
mod lists;
mod operators;

pub use build::beside;
pub use expressions::{closed_expression, expression, exprs};
pub use lists::sequence_head;
