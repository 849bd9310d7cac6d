//! The blocks of a method's code by their paths, and the statements of a block by their numbers.
#![tactic(auto)]

mod blocks;

pub use blocks::{block_at, statement_at};
