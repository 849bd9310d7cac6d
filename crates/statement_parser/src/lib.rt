//! Statements, steps of proofs, and the clauses of contracts and invariants, read token by token by recursive descent.
#![tactic(auto)]

mod clauses;
mod labels;
mod statements;
mod steps;

pub use clauses::{claims, names};
pub use statements::stmt;
