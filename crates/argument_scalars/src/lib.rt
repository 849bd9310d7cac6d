//! Numbers and truth values among the tokens of an argument, as values. Each answer is the only one.
#![tactic(auto)]

mod scalars;

pub use scalars::{Read, number_read, truth_read};
