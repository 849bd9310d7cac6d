//! Well-sorted sequents over a store, from words. Tests and benchmarks of closing read theirs so.
#![tactic(auto)]

mod end;
mod words;

pub use end::WordsEnd;
pub use words::{Words, sequent_of};
